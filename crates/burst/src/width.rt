// The widths of a bus.
ghost use Rattle.burst.specs.Rules.{width_bytes};
ghost use Rattle.std.specs.Prelude.{◌≡◌, ◌*◌, ◌/◌, ◌<◌, ◌≤◌};

// How many bytes a bus carries at once.
#[derive(Clone, Copy, PartialEq, Eq, Debug)]
pub enum Width {
    One = 1,
    Two = 2,
    Four = 4,
    Eight = 8,
}

impl Width {
    // The bytes that the bus carries at once.
    pub fn bytes(self) -> u32
        ensures value { result ≡ width_bytes self }
        ensures bound { result ≤ 8 }
        ensures nonzero { 0 < result }
    {
        self as u32
    }

    // The address of the word of the bus that an address lies in.
    pub fn word_start(self, address: u32) -> u32
        ensures value { result ≡ address / width_bytes self * width_bytes self }
        ensures low { result ≤ address }
    {
        address / self.bytes() * self.bytes()
    }
}

// The bytes of a frame in the lanes of a bus of eight bytes.
ghost use Rattle.std.specs.Prelude.{◌≡◌, ℕ, ◌+◌, ◌-◌, ◌^◌, ◌<◌, ◌≤◌, length, if◌then◌else◌};
ghost use Rattle.workload.specs.Carried.{in_frame, frame_byte, frame_word, frame_strobe};

// A frame, and the address of its first byte.
#[derive(Clone, Copy)]
pub struct Frame<'a> {
    pub bytes: &'a [u8],
    pub start: u32,
}

impl Frame<'_> {
    // Whether an address holds a byte of the frame.
    fn holds(&self, address: u64) -> bool
        ensures { result ≡ in_frame self.now.bytes.now self.now.start address }
    {
        let start = u64::from(self.start);
        start <= address && address - start < self.bytes.len() as u64
    }

    // The frame's byte at an address, 0 outside the frame.
    fn byte_at(&self, address: u64) -> u8
        ensures { result ≡ frame_byte self.now.bytes.now self.now.start address }
    {
        if self.holds(address) {
            self.bytes[(address - u64::from(self.start)) as usize]
        } else {
            0
        }
    }

    // The word of the frame's bytes at the eight addresses from `first` on.
    fn word_at(&self, first: u64) -> u64
        requires { first < 2 ^ 33 }
        ensures { result ≡ frame_word self.now.bytes.now self.now.start first }
    {
        u64::from_le_bytes(std::array::from_fn(|i| self.byte_at(first + i as u64)))
    }

    // The lanes of that word which hold a byte of the frame.
    fn strobe_at(&self, first: u64) -> u8
        requires { first < 2 ^ 33 }
        ensures { result ≡ frame_strobe self.now.bytes.now self.now.start first }
    {
        burst::mask_of(|i| self.holds(first + u64::from(i)))
    }

    // The word and the strobe that carry the frame's bytes over the aligned eight bytes from `first` on.
    pub fn carried(&self, first: u32) -> (u64, u8)
        ensures { result ≡ (frame_word self.now.bytes.now self.now.start first, frame_strobe self.now.bytes.now self.now.start first) }
    {
        let at = u64::from(first);
        (self.word_at(at), self.strobe_at(at))
    }
}

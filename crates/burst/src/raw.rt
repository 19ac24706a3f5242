// A burst as a master asks for it, its kinds, and the rules that it may break.
ghost use Rattle.burst.specs.Rules.{kind_code, fault_number};
ghost use Rattle.std.specs.Prelude.{◌≡◌};

// A burst as it is asked for: nothing is known of it. The kind is 0 FIXED, 1 INCR or 2 WRAP,
// a beat has 2 to the power of the size code bytes. The kind is a number, since a master may ask for one that there is not.
#[derive(Clone, Copy, PartialEq, Eq)]
pub struct RawBurst {
    pub kind: u8,
    pub start: u32,
    pub size: u8,
    pub count: u16,
}

impl RawBurst {
    // A burst of a known kind.
    pub fn new(kind: BurstKind, start: u32, size: u8, count: u16) -> RawBurst
        ensures { result ≡ record { kind = kind_code kind; start = start; size = size; count = count } }
    {
        RawBurst {
            kind: kind.into(),
            start,
            size,
            count,
        }
    }
}

#[derive(Clone, Copy, PartialEq, Eq)]
pub enum BurstKind {
    Fixed = 0,
    Incr = 1,
    Wrap = 2,
}

impl From<BurstKind> for u8 {
    ghost from_gives = { λ k r. r ≡ kind_code k };

    fn from(kind: BurstKind) -> u8 {
        kind as u8
    }
}

// The rule that a burst breaks, by the number of its refusal.
#[derive(Clone, Copy, PartialEq, Eq, Debug)]
pub enum BurstFault {
    Kind = 1,
    Size = 2,
    Count = 3,
    Start = 4,
    Page = 5,
}

impl BurstFault {
    // The number of the refusal.
    pub fn number(self) -> u8
        ensures { result ≡ fault_number self }
    {
        self as u8
    }
}

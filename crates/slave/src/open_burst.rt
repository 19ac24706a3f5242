// An open burst, and its next beat.
ghost use Rattle.std.specs.Prelude.{◌≡◌, ◌<◌, ◌≤◌, Some, None};
ghost use Rattle.burst.specs.Rules.{width_bytes};
ghost use Rattle.burst.specs.Beats.{raw_of, address_of, last_of, cover_answer};
ghost use Rattle.slave.specs.Acts.{past, left};
ghost use Rattle.slave.specs.Lanes.{outside, stray};
ghost use Rattle.slave.specs.Meaning.{told, busy, is_at};

use crate::lanes;
use burst::{Burst, Cover, RawBurst, Width};

// An open burst with the number of beats taken. Any two may stand here; of a slave's own place a law says that a beat is left.
#[derive(Clone, Copy)]
pub struct OpenBurst {
    pub burst: Burst,
    pub taken: u16,
}

impl OpenBurst {
    // A burst of which no beat is taken.
    pub fn new(burst: Burst) -> OpenBurst
        ensures { told (Some result) ≡ busy (raw_of burst) 0 }
    {
        OpenBurst { burst, taken: 0 }
    }

    // Whether it is this burst with so many beats taken.
    pub fn is_at(self, burst: RawBurst, taken: u16) -> bool
        ensures { result ≡ is_at burst taken (told (Some self)) }
    {
        self.burst.raw() == burst && self.taken == taken
    }

    // The bytes that the next beat covers; none where no beat is left.
    pub fn cover(self) -> Option<Cover>
        ensures { result ≡ cover_answer (raw_of self.burst) self.taken }
    {
        self.burst.cover(self.taken)
    }

    // Whether a strobe leaves the lanes of the next beat; where no beat is left, there are no lanes.
    pub fn strays(self, width: Width, strobe: u8) -> bool
        ensures left { self.taken < self.burst.count → result ≡ stray (width_bytes width) (address_of (raw_of self.burst) self.taken) (last_of (raw_of self.burst) self.taken) strobe }
        ensures none_left { self.burst.count ≤ self.taken → result ≡ outside 0 strobe }
    {
        lanes::strays(self.burst.lanes(self.taken, width).unwrap_or(0), strobe)
    }

    // The beats left after the next one.
    pub fn left(self) -> u16
        ensures { result ≡ left (raw_of self.burst) self.taken }
    {
        self.burst
            .count
            .saturating_sub(self.taken)
            .saturating_sub(1)
    }

    // The burst with the next beat taken; none after the last.
    pub fn next(self) -> Option<OpenBurst>
        ensures { told result ≡ past (raw_of self.burst) self.taken }
    {
        if self.left() == 0 {
            return None;
        }
        Some(OpenBurst {
            burst: self.burst,
            taken: self.taken + 1,
        })
    }
}

// The bytes that a beat covers.
ghost use Rattle.burst.specs.Beats.{covers, lane_mask, lane_used};
ghost use Rattle.burst.specs.Rules.{width_bytes};
ghost use Rattle.std.specs.Prelude.{◌≡◌};

use crate::lanes;
use crate::width::Width;

// The bytes from the first to the last that a beat, or a whole burst, covers.
#[derive(Clone, Copy, PartialEq, Eq, Debug)]
pub struct Cover {
    pub first: u32,
    pub last: u32,
}

impl Cover {
    // Whether an address lies between the first and the last byte.
    pub fn contains(self, address: u64) -> bool
        ensures { result ≡ covers self.first self.last address }
    {
        u64::from(self.first) <= address && address <= u64::from(self.last)
    }

    // Whether one of the bytes, which are eight at most, travels in this lane of a bus: the first one that could.
    fn uses(self, width: Width, lane: u8) -> bool
        ensures { result ≡ lane_used (width_bytes width) self.first self.last lane }
    {
        let bus = width.bytes();
        let lane = u32::from(lane);
        let ahead = (lane + bus - self.first % bus) % bus;
        lane < bus && u64::from(self.first) + u64::from(ahead) <= u64::from(self.last)
    }

    // The lanes that the bytes use on a bus, a bit for each.
    pub(crate) fn lanes(self, width: Width) -> u8
        ensures { result ≡ lane_mask (width_bytes width) self.first self.last }
    {
        lanes::mask_of(|i| self.uses(width, i))
    }
}

// Lanes of words and strobes, moved from one bus to another.
ghost use Rattle.std.specs.Prelude.{◌≡◌, ◌+◌, ◌%◌, Some, None, if◌then◌else◌};
ghost use Rattle.burst.specs.Beats.{covers};
ghost use Rattle.burst.specs.Rules.{width_bytes};
ghost use Rattle.converter.specs.Sent.{moved_word, moved_strobe};
ghost use Rattle.slave.specs.Lanes.{lane_byte};

use burst::{Cover, Width};

// A move of the covered bytes from their lanes on a bus to the lanes at `base`.
#[derive(Clone, Copy)]
pub(crate) struct Move {
    pub(crate) cover: Cover,
    pub(crate) bus: Width,
    pub(crate) base: u32,
}

impl Move {
    // The lane that the byte for lane i comes from; none where the byte at its address is not covered.
    fn source(self, i: u8) -> Option<u8>
        ensures { result ≡ (if covers self.cover.first self.cover.last (self.base + i)
            then Some ((self.base + i) % width_bytes self.bus) else None) }
    {
        let address = u64::from(self.base) + u64::from(i);
        let lane = (address % u64::from(self.bus.bytes())) as u8;
        self.cover.contains(address).then_some(lane)
    }

    // Lane i after a move over another word.
    fn lane(self, under: u64, word: u64, i: u8) -> u8
        ensures { result ≡ (if covers self.cover.first self.cover.last (self.base + i)
            then lane_byte word ((self.base + i) % width_bytes self.bus) else lane_byte under i) }
    {
        match self.source(i) {
            Some(lane) => slave::lane_byte(word, lane),
            None => slave::lane_byte(under, i),
        }
    }

    // The bytes of a word, moved over another word.
    pub(crate) fn word(self, under: u64, word: u64) -> u64
        ensures { result ≡ moved_word under word self.base
            self.cover.first self.cover.last (width_bytes self.bus) }
    {
        u64::from_le_bytes(std::array::from_fn(|i| self.lane(under, word, i as u8)))
    }

    // The strobe bits of the bytes.
    pub(crate) fn strobe(self, strobe: u8) -> u8
        ensures { result ≡ moved_strobe strobe self.base
            self.cover.first self.cover.last (width_bytes self.bus) }
    {
        burst::mask_of(|i| {
            self.source(i)
                .is_some_and(|lane| burst::strobed(strobe, lane))
        })
    }
}

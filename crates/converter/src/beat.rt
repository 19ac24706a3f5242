// A beat on a bus, and the pieces that it is cut into for the bus below.
ghost use Rattle.std.specs.Prelude.{◌≡◌, ◌*◌, ◌/◌, ◌^◌, ◌<◌, ◌≤◌, min, IfSome};
ghost use Rattle.std.specs.Option.{ForSome};
ghost use Rattle.std.specs.Iterator.{YieldsFirstBy, item_count};
ghost use Rattle.burst.specs.Rules.{width_bytes, KeepsPage};
ghost use Rattle.burst.specs.Beats.{raw_of, cover_of, last_from, incr_burst, IsLawful};
ghost use Rattle.converter.specs.Fits.{Cuttable};
ghost use Rattle.converter.specs.Pieces.{code_of, pieces, behind, pieces_left};

use crate::cut;
use burst::{BurstKind, Cover, RawBurst, Width};
use slave::OpenBurst;

// A beat that may go alone: its bytes, its size code, and the bus that it goes on.
#[derive(Clone, Copy)]
pub(crate) struct BusBeat {
    pub(crate) cover: Cover,
    pub(crate) size: u8,
    pub(crate) bus: Width,
    ghost fits: { 2 ^ size ≤ width_bytes bus },
    ghost last: { cover.last ≡ last_from cover.first (2 ^ size) },
    ghost page: { KeepsPage cover.first (2 ^ size) 1 },
}

impl BusBeat {
    // The next beat of an open burst that is lawful for the bus.
    pub(crate) fn next_of(at: OpenBurst, bus: Width) -> BusBeat
        requires lawful { IsLawful (width_bytes bus) (raw_of at.burst) }
        requires left { at.taken < at.burst.count }
        ensures cover { result.cover ≡ cover_of (raw_of at.burst) at.taken }
        ensures size { result.size ≡ at.burst.size }
        ensures bus { result.bus ≡ bus }
    {
        BusBeat {
            cover: at.cover().unwrap(),
            size: at.burst.size,
            bus,
        }
    }

    // What goes down for it: one INCR beat.
    pub(crate) fn alone(self) -> RawBurst
        ensures { result ≡ incr_burst self.cover.first self.size 1 }
    {
        RawBurst::new(BurstKind::Incr, self.cover.first, self.size, 1)
    }

    // The address of the word of the bus that it lies in.
    pub(crate) fn word_start(self) -> u32
        ensures { result ≡ self.cover.first / width_bytes self.bus * width_bytes self.bus }
    {
        self.bus.word_start(self.cover.first)
    }

    // Its pieces over a bus, each a beat there.
    pub(crate) fn pieces(self, below: Width) -> Pieces
        ensures left { pieces_left (width_bytes result.bus) result.rest
            ≡ pieces (width_bytes below) self.cover.first self.cover.last }
        ensures size { result.size ≡ min self.size (code_of (width_bytes below)) }
        ensures bus { result.bus ≡ below }
    {
        Pieces {
            rest: Some(self.cover),
            size: cut::piece_code(self.size, below),
            bus: below,
        }
    }
}

// What is left of the bytes up to `last` behind the byte at `end`.
fn behind(end: u32, last: u32) -> Option<Cover>
    ensures { result ≡ behind end last }
{
    (end < last).then(|| Cover {
        first: end + 1,
        last,
    })
}

// The pieces of what is left of a beat, from the first to the last.
#[derive(Drop)]
pub(crate) struct Pieces {
    rest: Option<Cover>,
    size: u8,
    bus: Width,
    ghost fits: { 2 ^ size ≤ width_bytes bus },
    ghost cuts: { ForSome rest (λ c. Cuttable (width_bytes bus) size c.last c.first) },
}

impl Iterator for Pieces {
    type Item = BusBeat;

    ghost next_gives = { λ s r t.
        YieldsFirstBy (λ p. (p.cover.first, p.cover.last)) (λ p. pieces_left (width_bytes p.bus) p.rest) s r t
        × IfSome r (λ p. (p.size ≡ s.size) × (p.bus ≡ s.bus))
        × (t.size ≡ s.size) × (t.bus ≡ s.bus) };

    ghost remaining = { item_count (λ s. pieces_left (width_bytes s.bus) s.rest) };

    fn next(&mut self) -> Option<BusBeat> {
        let Cover { first, last } = self.rest?;
        let end = cut::piece_end(first, last, self.bus);
        self.rest = behind(end, last);
        Some(BusBeat {
            cover: Cover { first, last: end },
            size: self.size,
            bus: self.bus,
        })
    }
}

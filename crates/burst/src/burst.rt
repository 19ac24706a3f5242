// A checked burst: its addresses, covers, lanes and span are asked without a refusal.
ghost use Rattle.burst.specs.Rules.{refusal, kind_code};
ghost use Rattle.std.specs.Prelude.{◌≡◌};

use crate::cover::Cover;
use crate::raw::{BurstKind, RawBurst};
use crate::width::Width;

// A burst that is lawful for a bus of 8 bytes; `check` makes it.
#[derive(Clone, Copy)]
pub struct Burst {
    pub kind: BurstKind,
    pub start: u32,
    pub size: u8,
    pub count: u16,
    ghost lawful: { refusal 8 (kind_code kind) start size count ≡ 0 },
}

impl Burst {
    ghost use Rattle.burst.specs.Rules.{width_bytes};
    ghost use Rattle.burst.specs.Beats.{raw_of, address_answer, cover_answer, lanes_answer, incr_address, wrap_address, container_of, span_of, address_of, last_of, last_from};
    ghost use Rattle.burst.specs.Laws.{BeatsLie, LaneBits};
    ghost use Rattle.burst.specs.declared.raw.BurstKind.TheVariants.{Incr, Wrap};
    ghost use Rattle.std.specs.Prelude.{ℕ, ◌+◌, ◌-◌, ◌*◌, ◌^◌, ◌<◌, ◌≤◌, IfSome};

    // The burst as a master would ask for it.
    pub fn raw(self) -> RawBurst
        ensures { result ≡ raw_of self }
    {
        RawBurst::new(self.kind, self.start, self.size, self.count)
    }

    // The bytes of a beat.
    fn beat_bytes(self) -> u32
        ensures value { result ≡ 2 ^ self.size }
        ensures nonzero { 0 < result }
    {
        1 << self.size
    }

    // The bytes of all beats; those of a WRAP burst go round in so many.
    fn all_bytes(self) -> u32
        ensures value { result ≡ self.count * 2 ^ self.size }
        ensures nonzero { 0 < result }
        ensures round { self.kind ≡ Wrap → (k : ℕ) × (k ≤ 7) × (result ≡ 2 ^ k) }
    {
        u32::from(self.count) * self.beat_bytes()
    }

    // The container that a WRAP burst goes round in.
    pub(crate) fn container(self) -> Cover
        requires { self.kind ≡ Wrap }
        ensures { result ≡ container_of (raw_of self) }
    {
        let round = self.all_bytes();
        let first = self.start / round * round;
        Cover {
            first,
            last: first + (round - 1),
        }
    }

    // The address of beat j of a WRAP burst.
    fn wrap_address(self, j: u32) -> u32
        requires kind { self.kind ≡ Wrap }
        requires below { j < self.count }
        ensures { result ≡ wrap_address self.start (2 ^ self.size) self.count j }
    {
        let round = self.all_bytes();
        let low = self.start / round * round;
        low + (self.start - low + j * self.beat_bytes()) % round
    }

    // The address of beat j of an INCR burst.
    fn incr_address(self, j: u32) -> u32
        requires kind { self.kind ≡ Incr }
        requires below { j < self.count }
        ensures { result ≡ incr_address self.start (2 ^ self.size) j }
    {
        if j == 0 {
            return self.start;
        }
        let beat = self.beat_bytes();
        self.start / beat * beat + j * beat
    }

    // The address of beat j; none from the count on.
    pub fn address(self, j: u16) -> Option<u32>
        ensures { result ≡ address_answer (raw_of self) j }
    {
        if j >= self.count {
            return None;
        }
        Some(match self.kind {
            BurstKind::Fixed => self.start,
            BurstKind::Incr => self.incr_address(j.into()),
            BurstKind::Wrap => self.wrap_address(j.into()),
        })
    }

    // The last byte that a beat at this address covers.
    fn last_from(self, address: u32) -> u32
        ensures { result ≡ last_from address (2 ^ self.size) }
    {
        let beat = self.beat_bytes();
        address / beat * beat + (beat - 1)
    }

    // The bytes that beat j covers; none from the count on.
    pub fn cover(self, j: u16) -> Option<Cover>
        ensures { result ≡ cover_answer (raw_of self) j }
    {
        let first = self.address(j)?;
        let last = self.last_from(first);
        Some(Cover { first, last })
    }

    // The lanes that beat j uses on a bus of this width, a bit for each; none from the count on.
    pub fn lanes(self, j: u16, width: Width) -> Option<u8>
        ensures answer { result ≡ lanes_answer (width_bytes width) (raw_of self) j }
        ensures bits { IfSome result (LaneBits (width_bytes width) (address_of (raw_of self) j) (last_of (raw_of self) j)) }
    {
        let cover = self.cover(j)?;
        Some(cover.lanes(width))
    }

    // The last byte of the last beat.
    fn last_byte(self) -> u32
        ensures { result ≡ last_of (raw_of self) (self.count - 1) }
    {
        self.cover(self.count - 1).unwrap().last
    }

    // The bytes that the burst may touch: those of its container for a WRAP burst.
    pub fn span(self) -> Cover
        ensures value { result ≡ span_of (raw_of self) }
        ensures law { BeatsLie (raw_of self) }
    {
        match self.kind {
            BurstKind::Wrap => self.container(),
            BurstKind::Fixed | BurstKind::Incr => Cover {
                first: self.start,
                last: self.last_byte(),
            },
        }
    }
}

// Piles of adapters of one kind over memory.
ghost use Rattle.converter.specs.Shows.{converter_shows};
ghost use Rattle.depths.specs.Nested.{over, slice_over, splitter_over, converter_over, made_by};
ghost use Rattle.register.specs.Shows.{shows as slice_shows};
ghost use Rattle.slave.specs.Making.{made};
ghost use Rattle.splitter.specs.Shows.{shows as splitter_shows};
ghost use Rattle.std.specs.Prelude.{◌≡◌};

use crate::adapter::Adapter;
use crate::beats::beats_back;
use converter::Converter;
use register::RegisterSlice;
use slave::{Made, Slave};
use splitter::Splitter;

// The most beats of a splitter's runs.
const NUMBER: u16 = 8;

// The width of a converter.
const BUS: u8 = 8;

// A register slice over a slave.
#[tactic(auto, unfolding(crate::specs::Nested::slice_over))]
fn slice<S: Slave + Drop>(below: S) -> Made<RegisterSlice<S>>
    ensures { made (slice_shows S.meaning) result ≡ slice_over (S.meaning below) }
{
    RegisterSlice::new(below)
}

// A splitter over a slave.
#[tactic(auto, unfolding(crate::specs::Nested::splitter_over))]
fn splitter<S: Slave + Drop>(below: S) -> Made<Splitter<S>>
    ensures { made (splitter_shows S.meaning) result ≡ splitter_over (S.meaning below) }
{
    Splitter::new(below, NUMBER)
}

// A converter over a slave.
#[tactic(auto, unfolding(crate::specs::Nested::converter_over))]
fn converter<S: Slave + Drop>(below: S) -> Made<Converter<S>>
    ensures { made (converter_shows S.meaning) result ≡ converter_over (S.meaning below) }
{
    Converter::new(below, BUS)
}

// The beats that come back over up to two adapters on a slave. A pile of each depth has a type of its own.
macro_rules! over_two {
    ($adapter:ident, $below:expr, $depth:expr) => {
        match $depth {
            0 => Some(beats_back($below)),
            1 => Some(beats_back($adapter($below))),
            2 => Some(beats_back($adapter($adapter($below)))),
            _ => None,
        }
    };
}

// The beats that come back over so many adapters: three of them, with the others over those, where there are as many.
macro_rules! over_three {
    ($adapter:ident, $rest:ident, $below:expr, $depth:expr) => {
        if $depth < 3 {
            $rest($below, $depth)
        } else {
            $rest($adapter($adapter($adapter($below))), $depth - 3)
        }
    };
}

// Over up to two register slices.
#[tactic(auto, using(crate::proofs::Nests::nested_none, crate::proofs::Nests::nested_one, crate::proofs::Nests::nested_two))]
fn over_two_slices<S: Slave + Drop>(below: S, depth: u8) -> Option<u16>
    ensures { result ≡ over 2 slice_over depth (S.meaning below) }
{
    over_two!(slice, below, depth)
}

// Over up to five.
#[tactic(auto, using(crate::proofs::Nests::nested_three))]
fn over_five_slices<S: Slave + Drop>(below: S, depth: u8) -> Option<u16>
    ensures { result ≡ over 5 slice_over depth (S.meaning below) }
{
    over_three!(slice, over_two_slices, below, depth)
}

// Over up to eight.
#[tactic(auto, using(crate::proofs::Nests::nested_three))]
fn over_slices<S: Slave + Drop>(below: S, depth: u8) -> Option<u16>
    ensures { result ≡ over 8 slice_over depth (S.meaning below) }
{
    over_three!(slice, over_five_slices, below, depth)
}

// Over up to two splitters.
#[tactic(auto, using(crate::proofs::Nests::nested_none, crate::proofs::Nests::nested_one, crate::proofs::Nests::nested_two))]
fn over_two_splitters<S: Slave + Drop>(below: S, depth: u8) -> Option<u16>
    ensures { result ≡ over 2 splitter_over depth (S.meaning below) }
{
    over_two!(splitter, below, depth)
}

// Over up to five.
#[tactic(auto, using(crate::proofs::Nests::nested_three))]
fn over_five_splitters<S: Slave + Drop>(below: S, depth: u8) -> Option<u16>
    ensures { result ≡ over 5 splitter_over depth (S.meaning below) }
{
    over_three!(splitter, over_two_splitters, below, depth)
}

// Over up to eight.
#[tactic(auto, using(crate::proofs::Nests::nested_three))]
fn over_splitters<S: Slave + Drop>(below: S, depth: u8) -> Option<u16>
    ensures { result ≡ over 8 splitter_over depth (S.meaning below) }
{
    over_three!(splitter, over_five_splitters, below, depth)
}

// Over up to two converters.
#[tactic(auto, using(crate::proofs::Nests::nested_none, crate::proofs::Nests::nested_one, crate::proofs::Nests::nested_two))]
fn over_two_converters<S: Slave + Drop>(below: S, depth: u8) -> Option<u16>
    ensures { result ≡ over 2 converter_over depth (S.meaning below) }
{
    over_two!(converter, below, depth)
}

// Over up to five.
#[tactic(auto, using(crate::proofs::Nests::nested_three))]
fn over_five_converters<S: Slave + Drop>(below: S, depth: u8) -> Option<u16>
    ensures { result ≡ over 5 converter_over depth (S.meaning below) }
{
    over_three!(converter, over_two_converters, below, depth)
}

// Over up to eight.
#[tactic(auto, using(crate::proofs::Nests::nested_three))]
fn over_converters<S: Slave + Drop>(below: S, depth: u8) -> Option<u16>
    ensures { result ≡ over 8 converter_over depth (S.meaning below) }
{
    over_three!(converter, over_five_converters, below, depth)
}

// Over so many adapters of a kind, which are eight at most.
pub(crate) fn over_adapters<S: Slave + Drop>(adapter: Adapter, depth: u8, below: S) -> Option<u16>
    ensures { result ≡ over 8 (made_by adapter) depth (S.meaning below) }
{
    match adapter {
        Adapter::Slice => over_slices(below, depth),
        Adapter::Splitter => over_splitters(below, depth),
        Adapter::Converter => over_converters(below, depth),
    }
}

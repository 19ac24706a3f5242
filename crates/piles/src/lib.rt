// One list of acts over piles of adapters: every pile gives the same answers.
#![tactic(auto)]

#[cfg(test)]
mod tests;
#[cfg(test)]
mod words;

ghost use Rattle.std.specs.Prelude.{◌≡◌};
ghost use Rattle.converter.specs.Making.{converted_made};
ghost use Rattle.ram.specs.Shows.{ram_made};
ghost use Rattle.register.specs.Making.{slice_made};
ghost use Rattle.splitter.specs.Making.{make_answer, made_as};

use converter::Converter;
use ram::Ram;
use register::RegisterSlice;
use slave::{Made, Slave};
use splitter::Splitter;

// A pile of makings, one over the other.
pub type Pile = Made<RegisterSlice<Made<Converter<Made<Splitter<Made<Ram>>>>>>>;

// A slice over a converter over a splitter over memory, or what is refused of them.
pub fn pile(memory: Vec<u8>, width: u8, most: u16, number: u16, bus: u8) -> Pile
    ensures { ⟦<Pile as Slave>⟧.meaning result ≡ slice_made (converted_made (made_as (make_answer number (ram_made memory.items width most)) (ram_made memory.items width most)) bus) }
{
    RegisterSlice::new(Converter::new(Splitter::new(Ram::new(memory, width, most), number), bus))
}

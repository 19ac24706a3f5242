// The making of a splitter: over which slave, and with which number.
ghost use Rattle.slave.specs.Making.{answered, made};
ghost use Rattle.splitter.specs.Fits.{numbered};
ghost use Rattle.splitter.specs.Making.{make_answer, made_as};
ghost use Rattle.splitter.specs.Shows.{shows, number_of, below_of};
ghost use Rattle.std.specs.Prelude.{◌≡◌, IfOk};

use crate::splitter::Splitter;
use slave::{Channels, MakeFault, Slave};

// Whether a slave takes so many beats at once.
fn takes<S: Slave>(below: &S, number: u16) -> bool
    ensures { result ≡ numbered number (S.meaning below.now) }
{
    (1..=below.most()).contains(&number)
}

// Whether a splitter with this number may be made over a slave, or the first rule that it breaks.
pub fn check<S: Slave>(below: &S, number: u16) -> Result<(), MakeFault>
    ensures { result ≡ make_answer number (S.meaning below.now) }
{
    slave::check_below(below)?;
    if !takes(below, number) {
        return Err(MakeFault::Measure);
    }
    Ok(())
}

impl<S: Slave + Drop> Splitter<S> {
    // A splitter over a slave, or the first rule that is broken.
    pub fn new(below: S, number: u16) -> Result<Splitter<S>, MakeFault>
        ensures answer { answered result ≡ answered (make_answer number (S.Slave.meaning below)) }
        ensures shown { made (shows S.Slave.meaning) result ≡ made_as (make_answer number (S.Slave.meaning below)) (S.Slave.meaning below) }
        ensures parts { IfOk result (λ s. (below_of s ≡ below) × (number_of s ≡ number)) }
    {
        check(&below, number)?;
        Ok(Splitter {
            width: below.width(),
            below,
            number,
            channels: Channels::idle(),
        })
    }
}

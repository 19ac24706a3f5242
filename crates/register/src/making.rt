// Which slave a register slice may stand over, and its making.
ghost use Rattle.register.specs.Making.{make_refusal};
ghost use Rattle.slave.specs.Making.{answered};
ghost use Rattle.std.specs.Prelude.{◌≡◌};

use crate::register::RegisterSlice;
use slave::{MakeFault, Slave, Snapshot};

// Whether a register slice may stand over this slave: it is live and both its channels are idle.
pub fn check<S: Slave>(below: &S) -> Result<(), MakeFault>
    ensures { answered result ≡ make_refusal (S.meaning below.now) }
{
    slave::check_below(below)
}

impl<S: Slave + Drop> RegisterSlice<S> {
    ghost use Rattle.register.specs.Making.{slice_made};
    ghost use Rattle.register.specs.Shows.{shows, below_of, held_of};
    ghost use Rattle.slave.specs.Making.{made};
    ghost use Rattle.std.specs.Prelude.{None, IfOk};

    // A slice over a slave that holds no beat, or the rule that the slave breaks.
    pub fn new(below: S) -> Result<RegisterSlice<S>, MakeFault>
        ensures answer { answered result ≡ make_refusal (S.Slave.meaning below) }
        ensures shown { made (shows S.Slave.meaning) result ≡ slice_made (S.Slave.meaning below) }
        ensures below { IfOk result (λ s. (below_of s ≡ below) × (held_of s ≡ None)) }
    {
        check(&below)?;
        Ok(RegisterSlice {
            snapshot: Snapshot::of(&below),
            below,
            held: None,
        })
    }
}

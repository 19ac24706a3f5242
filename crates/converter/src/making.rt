// Which slave a converter may stand over, and with which width.
ghost use Rattle.burst.specs.Rules.{width_bytes};
ghost use Rattle.converter.specs.Making.{make_refusal, converted_made};
ghost use Rattle.converter.specs.Shows.{converter_shows, below_of};
ghost use Rattle.slave.specs.Making.{answered, made};
ghost use Rattle.std.specs.Prelude.{◌≡◌, IfOk};

use crate::converter::Converter;
use burst::Width;
use slave::{Channels, MakeFault, Slave};

// The width of a converter that may be made over this slave, or the first rule that is broken.
pub fn check<S: Slave>(below: &S, width: u8) -> Result<Width, MakeFault>
    ensures first { answered result ≡ make_refusal (S.Slave.meaning below.now) width }
    ensures same { IfOk result (λ w. width_bytes w ≡ width) }
{
    slave::check_below(below)?;
    slave::width_of(width).ok_or(MakeFault::Measure)
}

impl<S: Slave + Drop> Converter<S> {
    // A converter over a slave, or the first rule that is broken.
    pub fn new(below: S, width: u8) -> Result<Converter<S>, MakeFault>
        ensures answer { answered result ≡ make_refusal (S.Slave.meaning below) width }
        ensures shown { made (converter_shows S.Slave.meaning) result
            ≡ converted_made (S.Slave.meaning below) width }
        ensures below { IfOk result (λ c. below_of c ≡ below) }
    {
        Ok(Converter {
            width: check(&below, width)?,
            below,
            channels: Channels::idle(),
        })
    }
}

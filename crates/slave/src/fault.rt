// Why a slave refuses a call.
ghost use Rattle.slave.specs.Acts.{number};
ghost use Rattle.slave.specs.declared.fault.SlaveFault.TheVariants.{Unlawful};
ghost use Rattle.std.specs.Prelude.{◌≡◌};

use burst::BurstFault;

// Why a slave refuses a call.
#[derive(Clone, Copy, PartialEq, Eq, Debug)]
pub enum SlaveFault {
    Unlawful(BurstFault),
    Simple,
    Strobe,
    NotOpen,
    AlreadyOpen,
    Dead,
}

impl SlaveFault {
    // The number of the refusal. No discriminants: an unlawful burst's fault has its own number.
    pub fn number(self) -> u8
        ensures { result ≡ number self }
    {
        match self {
            SlaveFault::Unlawful(fault) => fault.number(),
            SlaveFault::Simple => 6,
            SlaveFault::Strobe => 7,
            SlaveFault::NotOpen => 9,
            SlaveFault::AlreadyOpen => 10,
            SlaveFault::Dead => 19,
        }
    }
}

impl From<BurstFault> for SlaveFault {
    ghost from_gives = { λ e r. r ≡ Unlawful e };

    fn from(broken: BurstFault) -> SlaveFault {
        SlaveFault::Unlawful(broken)
    }
}

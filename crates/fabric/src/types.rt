// What masters ask of the fabric, and what it answers.
ghost use Rattle.std.specs.Prelude.{◌≡◌, ℕ};
ghost use Rattle.fabric.specs.Numbers.{fabric_number};
ghost use Rattle.fabric.specs.declared.types.FabricFault.TheVariants.{Slave, Unlawful};

use burst::{BurstFault, RawBurst};
use slave::{Channel, Response, SlaveFault};

// A request as it is made: nothing is known of it.
#[derive(Clone, Copy)]
pub struct Request {
    pub master: u8,
    pub id: u8,
    pub qos: u8,
    pub burst: RawBurst,
}

// One act on a fabric and its slave.
#[derive(Clone, Copy)]
pub enum Act {
    Request(Channel, Request),
    Grant(Channel),
    Put {
        master: u8,
        word: u64,
        strobe: u8,
        last: bool,
    },
    Take,
}

// What an accepted act answers.
#[derive(Clone, Copy, PartialEq, Eq, Debug)]
pub enum Answer {
    // a request waits
    Accepted,
    // a grant opened the request of this master and ID
    Granted {
        master: u8,
        id: u8,
    },
    // a put, with so many beats left
    More(u16),
    // the last put, with the worst response
    Done {
        master: u8,
        id: u8,
        response: Response,
    },
    // a take, with so many beats left
    Beat {
        master: u8,
        id: u8,
        word: u64,
        response: Response,
        left: u16,
    },
}

// Why the fabric refuses an act.
#[derive(Clone, Copy, PartialEq, Eq, Debug)]
pub enum FabricFault {
    // the burst of a request is unlawful
    Unlawful(BurstFault),
    // the last mark does not fit the beat
    LastMark,
    // the channel has no open request
    NotOpen,
    // the channel already has an open request
    AlreadyOpen,
    // the master is above 3 or the QoS above 15
    Source,
    // sixteen requests wait in the channel
    Full,
    // no request waits
    NoneWaiting,
    // the open write is another master's
    OtherMaster,
    // the slave's place is not the recorded one
    Place,
    // the slave is dead, not idle, not full or not of width 8
    Below,
    // the slave's own fault
    Slave(SlaveFault),
}

// How an act ends.
pub type Outcome = Result<Answer, FabricFault>;

impl FabricFault {
    // The number of the refusal. No discriminants: two of the faults carry another, which has its own number.
    pub fn number(self) -> u8
        ensures { result ≡ fabric_number self }
    {
        match self {
            FabricFault::Unlawful(fault) => fault.number(),
            FabricFault::LastMark => 8,
            FabricFault::NotOpen => 9,
            FabricFault::AlreadyOpen => 10,
            FabricFault::Source => 11,
            FabricFault::Full => 12,
            FabricFault::NoneWaiting => 13,
            FabricFault::OtherMaster => 14,
            FabricFault::Place => 15,
            FabricFault::Below => 18,
            FabricFault::Slave(fault) => fault.number(),
        }
    }
}

impl From<BurstFault> for FabricFault {
    ghost from_gives = { λ e r. r ≡ Unlawful e };

    fn from(broken: BurstFault) -> FabricFault {
        FabricFault::Unlawful(broken)
    }
}

// The slave's own fault, whole: its number and its layer are then told as the slave's.
impl From<SlaveFault> for FabricFault {
    ghost from_gives = { λ e r. r ≡ Slave e };

    fn from(own: SlaveFault) -> FabricFault {
        FabricFault::Slave(own)
    }
}

// Why a call of the bench is refused, and why an act or a file has no answer.
ghost use Rattle.bench.specs.Outcomes.{bench_number, call_number, fault_act, fault_told};
ghost use Rattle.bench.specs.declared.fault.BenchFault.TheVariants.{Fabric};
ghost use Rattle.bench.specs.declared.fault.CallFault.TheVariants.{Short};
ghost use Rattle.std.specs.Prelude.{◌≡◌};

use fabric::FabricFault;
use report::{Layer, Refusal, ReportFault};

// Why a call is refused, with its number.
#[derive(Clone, Copy, PartialEq, Eq, Debug)]
pub enum CallFault {
    // the memory has not 8,192 bytes
    Memory = 17,
    // the buffer has too little room for the report
    Short = 22,
}

impl CallFault {
    // The number of the refusal.
    pub fn number(self) -> u8
        ensures { result ≡ call_number self }
    {
        self as u8
    }
}

// A line that does not fit is a report that does not.
impl From<ReportFault> for CallFault {
    ghost from_gives = { λ e r. r ≡ Short };

    fn from(fault: ReportFault) -> CallFault {
        match fault {
            ReportFault::Short => CallFault::Short,
        }
    }
}

// What a report tells in place of an answer.
#[derive(Clone, Copy, PartialEq, Eq, Debug)]
pub enum BenchFault {
    // the file's header is bad
    Header,
    // the record of this act is bad
    Record(u32),
    // the fabric refuses this act
    Fabric(u32, FabricFault),
}

impl BenchFault {
    // The number of the refusal. No discriminants: the fabric's fault has its own number.
    pub fn number(self) -> u8
        ensures { result ≡ bench_number self }
    {
        match self {
            BenchFault::Header => 20,
            BenchFault::Record(_) => 21,
            BenchFault::Fabric(_, fault) => fault.number(),
        }
    }

    // The number of the act that is refused; a bad header is told as act 0.
    pub fn act(self) -> u32
        ensures { result ≡ fault_act self }
    {
        match self {
            BenchFault::Header => 0,
            BenchFault::Record(act) | BenchFault::Fabric(act, _) => act,
        }
    }
}

impl From<(u32, FabricFault)> for BenchFault {
    ghost from_gives = { λ e r. r ≡ Fabric e.0 e.1 };

    fn from(of_act: (u32, FabricFault)) -> BenchFault {
        BenchFault::Fabric(of_act.0, of_act.1)
    }
}

// A fabric's fault is told as the fabric's, any other as the bench's.
impl From<BenchFault> for Refusal {
    ghost from_gives = { λ e r. r ≡ fault_told e };

    fn from(fault: BenchFault) -> Refusal {
        match fault {
            BenchFault::Fabric(_, own) => Refusal::from(own),
            _ => Refusal {
                layer: Layer::Bench,
                number: fault.number(),
            },
        }
    }
}

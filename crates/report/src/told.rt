// What a line tells of an act, and the one fault of writing it.
ghost use Rattle.report.specs.Lines.{layer_letter};
ghost use Rattle.report.specs.Outcomes.{refusal_of, report_number};
ghost use Rattle.std.specs.Prelude.{◌≡◌};

use fabric::{Answer, FabricFault};

// Who refuses an act, by the letter that stands for it.
#[derive(Clone, Copy, PartialEq, Eq, Debug)]
pub enum Layer {
    Slave = b'S' as isize,
    Fabric = b'F' as isize,
    Bench = b'B' as isize,
}

impl Layer {
    // The letter of the layer.
    pub(crate) fn letter(self) -> u8
        ensures { result ≡ layer_letter self }
    {
        self as u8
    }
}

// A layer refuses an act, with the number of the refusal.
#[derive(Clone, Copy, PartialEq, Eq, Debug)]
pub struct Refusal {
    pub layer: Layer,
    pub number: u8,
}

// How an act ended: with an answer, or refused.
pub type Told = Result<Answer, Refusal>;

// Why a line is not written.
#[derive(Clone, Copy, PartialEq, Eq, Debug)]
pub enum ReportFault {
    // the buffer is shorter than the line
    Short = 22,
}

impl ReportFault {
    // The number of the refusal.
    pub fn number(self) -> u8
        ensures { result ≡ report_number self }
    {
        self as u8
    }
}

// The slave's own fault is the slave's, any other the fabric's.
impl From<FabricFault> for Refusal {
    ghost from_gives = { λ e r. r ≡ refusal_of e };

    fn from(fault: FabricFault) -> Refusal {
        let layer = match fault {
            FabricFault::Slave(_) => Layer::Slave,
            _ => Layer::Fabric,
        };
        Refusal {
            layer,
            number: fault.number(),
        }
    }
}

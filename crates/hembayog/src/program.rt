// From an input to the report that is printed.
ghost use Rattle.bench.specs.Runs.{report_of};
ghost use Rattle.bench.specs.declared.making.TheConstants.{MEMORY_BYTES};
ghost use Rattle.bench.specs.declared.records.TheConstants.{REPORT_BYTES};
ghost use Rattle.hembayog.specs.Program.{IsNoMemory, Reports, message_of};
ghost use Rattle.std.specs.Prelude.{◌≡◌, replicate, IfOk, IfErr, IfSome, vec_len};

use bench::{MEMORY_BYTES, REPORT_BYTES};
use fabric::Fabric;
use std::alloc::Global;
use std::io::{BufReader, Read};

// What is wanted and cannot be had.
#[derive(Clone, Copy)]
pub enum Want {
    Pile,
    Report,
    Fabric,
    Input,
    Script,
}

impl Want {
    // What is said of it.
    pub fn message(self) -> &'static str
        ensures { result.now ≡ message_of self }
    {
        match self {
            Want::Pile => "no memory for the pile",
            Want::Report => "no memory for the report",
            Want::Fabric => "no memory for the fabric",
            Want::Input => "no memory for the input",
            Want::Script => "the script cannot be read",
        }
    }
}

// What a run is handed.
#[derive(Drop)]
struct Handed {
    memory: Vec<u8>,
    report: Vec<u8>,
    fabric: Fabric,
}

impl Handed {
    // Memory, a buffer for every report, and a fabric.
    fn new(heap: Global) -> Result<Handed, Want>
        ensures memory { IfOk result (λ h. h.memory.items ≡ replicate MEMORY_BYTES 0) }
        ensures report { IfOk result (λ h. h.report.items ≡ replicate REPORT_BYTES 0) }
        ensures want { IfErr result IsNoMemory }
    {
        let Ok(memory) = vec![in heap; 0u8; MEMORY_BYTES] else {
            return Err(Want::Pile);
        };
        let Ok(report) = vec![in heap; 0u8; REPORT_BYTES] else {
            return Err(Want::Report);
        };
        let Ok(fabric) = Fabric::new(heap) else {
            return Err(Want::Fabric);
        };
        Ok(Handed {
            memory,
            report,
            fabric,
        })
    }

    // The report of a file. None is too long.
    fn report(self, file: &[u8]) -> Vec<u8>
        requires memory { vec_len self.memory ≡ MEMORY_BYTES }
        requires room { vec_len self.report ≡ REPORT_BYTES }
        ensures { result.items ≡ report_of file.now }
    {
        let Handed {
            memory,
            mut report,
            fabric,
        } = self;
        let bytes = bench::run(file, memory, fabric, &mut report).unwrap();
        report.truncate(bytes);
        report
    }
}

// The report of the script on an input. All memory is made before anything is read or run.
pub fn report<R: Read + Drop>(input: R, heap: Global) -> Result<Vec<u8>, Want>
    ensures { IfOk result (λ report. IfSome (R.Read.remaining input) (Reports report.items)) }
{
    let handed = Handed::new(heap)?;
    let Ok(input) = BufReader::new(heap, input) else {
        return Err(Want::Input);
    };
    let Ok(file) = script::read(input, heap) else {
        return Err(Want::Script);
    };
    Ok(handed.report(&file))
}

// The records of a script, one after the other, over any slave.
ghost use Rattle.std.specs.Prelude.{◌≡◌, ◌≤◌, ℕ, List, true, [], ◌++◌, length, is_ok, OnOk};
ghost use Rattle.bench.specs.Outcomes.{lifted, outcome_line, record_after, record_answer, record_slave};
ghost use Rattle.bench.specs.Reports.{EndsRight, Ran, script_report};
ghost use Rattle.bench.specs.Sinks.{Takes};
ghost use Rattle.fabric.specs.Channels.{channels_of};
ghost use Rattle.slave.specs.Meaning.{board};
ghost use Rattle.history.specs.Tracks.{Tracks};

use crate::fault::BenchFault;
use crate::sink::Sink;
use fabric::{Act, Answer, Fabric, Outcome};
use report::{LINE_BYTES, Refusal, ReportFault};
use script::{MOST_ACTS, Script, ScriptFault, read_act};
use slave::Slave;

// Room for the lines of as many acts as a script can have: no report is longer.
pub const REPORT_BYTES: usize = LINE_BYTES * MOST_ACTS;

// An outcome of the fabric with the act's number.
fn lift(act: u32, outcome: Outcome) -> Result<Answer, BenchFault>
    ensures { result ≡ lifted act outcome }
{
    outcome.map_err(|fault| BenchFault::from((act, fault)))
}

// Performs the act of a record, unless the record is bad. In a run it ends as the history before it says.
fn perform_act<S: Slave>(
    fabric: &mut Fabric,
    slave: &mut S,
    number: u32,
    act: Result<Act, ScriptFault>,
) -> Result<Answer, BenchFault>
    ensures answer { result ≡ record_answer (channels_of fabric.old) (S.Slave.meaning slave.old) number act }
    ensures after { channels_of fabric.new ≡ record_after (channels_of fabric.old) (S.Slave.meaning slave.old) act }
    ensures slave { S.Slave.meaning slave.new ≡ record_slave (channels_of fabric.old) (S.Slave.meaning slave.old) act }
    ensures run { EndsRight (channels_of fabric.old) (S.Slave.meaning slave.old) number act result (channels_of fabric.new) (S.Slave.meaning slave.new) }
{
    let act = act.map_err(|_| BenchFault::Record(number))?;
    lift(number, history::act(fabric, slave, act))
}

// Tells how an act ended: a refusal has its number with it.
fn tell<K: Sink>(
    sink: &mut K,
    act: u32,
    outcome: Result<Answer, BenchFault>,
) -> Result<(), ReportFault>
    ensures most { length (outcome_line act outcome) ≤ LINE_BYTES }
    ensures takes { (start : K) (text : List ℕ) → K.Sink.took start text sink.old → Takes (λ t. K.Sink.took start t sink.new) (K.Sink.room start) (text ++ outcome_line act outcome) result }
{
    match outcome {
        Ok(answer) => sink.tell(act, Ok(answer)),
        Err(fault) => sink.tell(fault.act(), Err(Refusal::from(fault))),
    }
}

// Performs every record of a script in a run that has begun, and tells its line; a line that does not fit ends the run.
pub(crate) fn perform<S: Slave, K: Sink>(
    script: Script<'_>,
    fabric: &mut Fabric,
    slave: &mut S,
    sink: &mut K,
) -> Result<(), ReportFault>
    requires run { Tracks (board (S.Slave.meaning slave.old)) [] (channels_of fabric.old) (S.Slave.meaning slave.old) }
    requires start { K.Sink.took sink.old [] sink.old }
    ensures takes { Takes (λ t. K.Sink.took sink.old t sink.new) (K.Sink.room sink.old) (script_report (board (S.Slave.meaning slave.old)) script.entry.records.now) result }
    ensures roomy { REPORT_BYTES ≤ K.Sink.room sink.old → is_ok result ≡ true }
    ensures most { OnOk result (length (script_report (board (S.Slave.meaning slave.old)) script.entry.records.now) ≤ REPORT_BYTES) }
    ensures run { OnOk result (Ran (board (S.Slave.meaning slave.old)) script.entry.records.now (channels_of fabric.new) (S.Slave.meaning slave.new)) }
{
    for (i, record) in script.records().iter().enumerate() {
        // by the index: with `(1u32..).zip(..)` the goals of the loop stayed open
        let number = i as u32 + 1;
        let outcome = perform_act(fabric, slave, number, read_act(record));
        tell(sink, number, outcome)?;
    }
    Ok(())
}

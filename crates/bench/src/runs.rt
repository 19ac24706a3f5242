// A whole run of a script over the pile.
ghost use Rattle.bench.specs.Piles.{Piled, image_board, loaded, pile_shows};
ghost use Rattle.bench.specs.Reports.{script_history, script_report};
ghost use Rattle.bench.specs.Runs.{bench_after, bench_answer, file_board, file_history, header_line, runs};
ghost use Rattle.fabric.specs.Channels.{channels_of};
ghost use Rattle.slave.specs.Meaning.{board};
ghost use Rattle.history.specs.Law.{Holds};
ghost use Rattle.history.specs.Tracks.{Tracks};
ghost use Rattle.report.specs.Lines.{written};
ghost use Rattle.bench.specs.declared.fault.CallFault.TheVariants.{Short};
ghost use Rattle.std.specs.Prelude.{◌≡◌, ◌<◌, ◌≤◌, ◌⊎◌, true, [], ◌++◌, length, drop, if◌then◌else◌, Ok, Err, is_ok, IfOk, MatchResult, vec_len, nat_le};

use crate::fault::{BenchFault, CallFault};
use crate::making::{MEMORY_BYTES, Pile, pile, with_image};
use crate::records::{REPORT_BYTES, perform};
use crate::sink::{Buffer, Room};
use fabric::Fabric;
use report::{Refusal, write_line};
use script::Script;

// Begins a run over the pile on this memory, which holds the image first.
fn begin(memory: Vec<u8>, image: &[u8], fabric: &mut Fabric) -> Pile
    requires memory { vec_len memory ≡ 8192 }
    requires image { length image.now ≤ 8192 }
    ensures piled { Piled result (loaded image.now 8192) }
    ensures board { board (pile_shows result) ≡ image_board image.now }
    ensures run { Tracks (board (pile_shows result)) [] (channels_of fabric.new) (pile_shows result) }
{
    let pile = pile(with_image(memory, image)).unwrap();
    history::begin(fabric, &pile).unwrap();
    pile
}

// The memory for a run that writes. Where some report may not fit in so much room, a run that writes nothing shows first
// that this one does, and its memory is taken back.
fn measured(
    script: Script<'_>,
    memory: Vec<u8>,
    fabric: &mut Fabric,
    room: usize,
) -> Result<Vec<u8>, CallFault>
    requires { vec_len memory ≡ 8192 }
    ensures memory { IfOk result (λ m. vec_len m ≡ 8192) }
    ensures room { MatchResult result (λ m. (REPORT_BYTES ≤ room) ⊎ (length (script_report (image_board script.entry.image.now) script.entry.records.now) ≤ room)) (λ e. (e ≡ Short) × (room < length (script_report (image_board script.entry.image.now) script.entry.records.now))) }
    ensures roomy { REPORT_BYTES ≤ room → is_ok result ≡ true }
{
    if room >= REPORT_BYTES {
        return Ok(memory);
    }
    let mut pile = begin(memory, script.image(), fabric);
    perform(script, fabric, &mut pile, &mut Room { left: room })?;
    let ram = pile.into_below().into_below().into_below();
    Ok(ram.into_memory())
}

// Runs a script and writes its report to a buffer that it fits in; answers how many bytes the report has.
fn reported(script: Script<'_>, memory: Vec<u8>, fabric: &mut Fabric, report: &mut [u8]) -> usize
    requires memory { vec_len memory ≡ 8192 }
    requires room { (REPORT_BYTES ≤ length report.old) ⊎ (length (script_report (image_board script.image.now) script.records.now) ≤ length report.old) }
    ensures count { result ≡ length (script_report (image_board script.entry.image.now) script.entry.records.now) }
    ensures fits { result ≤ length report.old }
    ensures most { result ≤ REPORT_BYTES }
    ensures report { report.new ≡ script_report (image_board script.entry.image.now) script.entry.records.now ++ drop (length (script_report (image_board script.entry.image.now) script.entry.records.now)) report.old }
    ensures law { Holds (image_board script.entry.image.now) (script_history (image_board script.entry.image.now) script.entry.records.now) }
{
    let mut pile = begin(memory, script.image(), fabric);
    let mut lines = Buffer {
        bytes: report,
        end: 0,
    };
    perform(script, fabric, &mut pile, &mut lines).unwrap();
    lines.end
}

// Writes the line of a bad header.
fn tell_header(report: &mut [u8]) -> Result<usize, CallFault>
    ensures answer { result ≡ (if nat_le (length header_line) (length report.old) then Ok (length header_line) else Err Short) }
    ensures after { report.new ≡ written header_line report.old }
    ensures most { length header_line ≤ REPORT_BYTES }
{
    let fault = BenchFault::Header;
    Ok(write_line(report, fault.act(), Err(Refusal::from(fault)))?)
}

// Runs a script over the pile on the memory and the fabric handed in, writes the report, and answers how many bytes it has.
// It wants no memory of its own. Memory of another length than 8,192 bytes is refused, then a buffer that is shorter than the
// report: a first run measures it, so that nothing is written unless all of it is. No report is longer than `REPORT_BYTES`,
// and in a buffer of as many bytes or more it is written at once.
pub fn run(
    file: &[u8],
    memory: Vec<u8>,
    mut fabric: Fabric,
    report: &mut [u8],
) -> Result<usize, CallFault>
    ensures answer { result ≡ bench_answer file.now (vec_len memory) (length report.old) }
    ensures report { report.new ≡ bench_after file.now (vec_len memory) report.old }
    ensures within { IfOk result (λ bytes. bytes ≤ length report.new) }
    ensures law { runs file.now (vec_len memory) (length report.old) ≡ true → Holds (file_board file.now) (file_history file.now) }
    ensures most { IfOk result (λ bytes. bytes ≤ REPORT_BYTES) }
    ensures roomy { vec_len memory ≡ MEMORY_BYTES → REPORT_BYTES ≤ length report.old → is_ok result ≡ true }
{
    if memory.len() != MEMORY_BYTES {
        return Err(CallFault::Memory);
    }
    let Ok(script) = script::open(file) else {
        return tell_header(report);
    };
    let memory = measured(script, memory, &mut fabric, report.len())?;
    Ok(reported(script, memory, &mut fabric, report))
}

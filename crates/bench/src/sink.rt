// What takes the lines of a report, one behind the other: a count of the room for them, or a buffer.
ghost use Rattle.std.specs.Prelude.{◌≡◌, ◌+◌, ◌<◌, ◌≤◌, ℕ, List, ◌++◌, length, take, drop, MatchResult};
ghost use Rattle.bench.specs.Sinks.{Takes};
ghost use Rattle.report.specs.Lines.{line};

use report::{LINE_BYTES, ReportFault, Told, line_length, write_line};

pub(crate) trait Sink {
    // from this start it took this text, and is now
    ghost took: { Self → List ℕ → Self → Type 0 };

    // how long a text it takes from this start
    ghost room: { Self → ℕ };

    // Takes a line behind the others, where it fits.
    fn tell(&mut self, act: u32, told: Told) -> Result<(), ReportFault>
        ensures most { length (line act told) ≤ LINE_BYTES }
        ensures takes { (start : Self) (text : List ℕ) → took start text self.old → Takes (λ t. took start t self.new) (room start) (text ++ line act told) result };
}

// Room for lines: how many bytes are left. It keeps no line.
#[derive(Drop)]
pub(crate) struct Room {
    pub(crate) left: usize,
}

impl Sink for Room {
    ghost took = { λ start text now. now.left + length text ≡ start.left };

    ghost room = { λ start. start.left };

    fn tell(&mut self, act: u32, told: Told) -> Result<(), ReportFault> {
        let bytes = line_length(act, told);
        if self.left < bytes {
            return Err(ReportFault::Short);
        }
        self.left -= bytes;
        Ok(())
    }
}

// Writes a line behind the first `at` bytes of a report and answers where it ends.
fn write_behind(report: &mut [u8], at: usize, act: u32, told: Told) -> Result<usize, ReportFault>
    requires { at ≤ length report.old }
    ensures most { length (line act told) ≤ LINE_BYTES }
    ensures end { MatchResult result (λ end. (end ≡ at + length (line act told)) × (end ≤ length report.old)) (λ e. length report.old < at + length (line act told)) }
    ensures after { MatchResult result (λ end. report.new ≡ take at report.old ++ (line act told ++ drop (at + length (line act told)) report.old)) (λ e. report.new ≡ report.old) }
{
    Ok(at + write_line(&mut report[at..], act, told)?)
}

// A lent buffer that lines fill from its front, since the bench wants no memory of its own.
#[derive(Drop)]
pub(crate) struct Buffer<'a> {
    pub(crate) bytes: &'a mut [u8],
    pub(crate) end: usize,
    ghost within: { end ≤ length bytes.now },
}

impl<'a> Sink for Buffer<'a> {
    ghost took = { λ start text now. (now.bytes.ghost_name ≡ start.bytes.ghost_name) × (now.end ≡ length text) × (length text ≤ length start.bytes.now) × (now.bytes.now ≡ text ++ drop (length text) start.bytes.now) };

    ghost room = { λ start. length start.bytes.now };

    fn tell(&mut self, act: u32, told: Told) -> Result<(), ReportFault> {
        self.end = write_behind(self.bytes, self.end, act, told)?;
        Ok(())
    }
}

// Whole lines, and a line into a handed buffer.
ghost use Rattle.std.specs.Prelude.{◌≡◌, ◌≤◌, length};
ghost use Rattle.report.specs.Laws.{LinesTell};
ghost use Rattle.report.specs.Lines.{line, written};
ghost use Rattle.report.specs.Outcomes.{write_answer};
ghost use Rattle.report.specs.Texts.{text};

use super::Line;
use crate::told::{ReportFault, Told};

impl Line {
    // The line of an act's outcome.
    #[tactic(auto, using(crate::proofs::Pushes::cut_more, crate::proofs::Lengths::line_whole))]
    fn of(act: u32, told: Told) -> Line
        ensures { text result ≡ line act told }
    {
        let mut line = Line::new();
        line.number(act);
        line.push(b" ");
        line.told(told);
        line.push(b"\n");
        line
    }

    // Copies the line to the front of a buffer; one that is too short is left as it was.
    fn write_to(&self, out: &mut [u8]) -> Result<usize, ReportFault>
        ensures answer { result ≡ write_answer (text self.now) out.old }
        ensures after { out.new ≡ written (text self.now) out.old }
    {
        let n = self.bytes.len();
        // not by `get_mut(..n)`: std's contract does not tell what the buffer holds after it
        if out.len() < n {
            return Err(ReportFault::Short);
        }
        out[..n].copy_from_slice(&self.bytes);
        Ok(n)
    }
}

// Writes the line of an act's outcome to the front of a buffer and answers its length. A buffer that is shorter than
// the line is refused and left as it was; bytes behind the line stay. No line is longer than 64 bytes.
#[tactic(auto, using(crate::proofs::Telling::lines_tell))]
pub fn write_line(out: &mut [u8], act: u32, told: Told) -> Result<usize, ReportFault>
    ensures answer { result ≡ write_answer (line act told) out.old }
    ensures after { out.new ≡ written (line act told) out.old }
    ensures most { length (line act told) ≤ 64 }
    ensures law { LinesTell }
{
    Line::of(act, told).write_to(out)
}

// How many bytes the line of an act's outcome has, its end counted.
pub fn line_length(act: u32, told: Told) -> usize
    ensures value { result ≡ length (line act told) }
    ensures most { result ≤ 64 }
{
    Line::of(act, told).bytes.len()
}

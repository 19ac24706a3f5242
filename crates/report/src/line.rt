// A line of text that is being written.
//
// `write!` and `Display` do not serve here: std's contracts tell what was written only where a call answers `Ok`, and of
// no writer that it does, but a line is exact, and nothing but a short buffer refuses it.
ghost use Rattle.std.specs.Prelude.{◌≤◌, length};
ghost use Rattle.report.specs.declared.line.TheConstants.{LINE_BYTES};

use arrayvec::ArrayVec;

// The room for a line. No line is longer.
pub const LINE_BYTES: usize = 64;

// The bytes that stand so far. A report must not want memory, so they lie in the line itself.
#[derive(Drop)]
pub(crate) struct Line {
    bytes: ArrayVec<u8, LINE_BYTES>,
    ghost within: { length bytes.items ≤ LINE_BYTES },
}

mod digits;
mod lines;
mod words;

pub use lines::{line_length, write_line};

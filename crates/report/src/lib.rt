// A line of text for each outcome of an act.
#![tactic(auto)]

mod line;
mod told;

pub use line::{LINE_BYTES, line_length, write_line};
pub use told::{Layer, Refusal, ReportFault, Told};

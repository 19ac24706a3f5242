// The converter: a full slave of a width of its own over a slave of any width.
#![tactic(auto)]

mod beat;
mod calls;
mod converter;
mod cut;
mod lanes;
mod laws;
mod making;
mod pieces;

pub use converter::Converter;
pub use cut::piece_end;
pub use laws::pieces_lie;
pub use making::check;

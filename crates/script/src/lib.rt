// Scripts: a header, acts as records of 24 bytes, and an image, all parts of one file.
#![tactic(auto)]

mod acts;
mod code;
mod fault;
mod reading;
mod record;
mod script;

pub use acts::{read_act, write_act};
pub use fault::ScriptFault;
pub use reading::read;
pub use script::Script;
pub use script::calls::{MOST_ACTS, open};

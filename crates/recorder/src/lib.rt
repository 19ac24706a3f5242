// A slave that passes every call down and records those that the slave below takes.
#![tactic(auto)]

mod calls;
mod record;

pub use record::{Call, Recorder};

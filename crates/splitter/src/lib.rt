// The splitter: a full slave over one that takes only short INCR bursts.
#![tactic(auto)]

mod calls;
mod follow;
mod making;
mod runs;
mod splitter;

pub use making::check;
pub use runs::run_at;
pub use splitter::Splitter;

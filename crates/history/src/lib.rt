// Runs of a fabric over a slave, and the law over whole runs.
#![tactic(auto)]

mod laws;
mod runs;

pub use laws::example_stands;
pub use runs::{RunFault, act, begin, run};

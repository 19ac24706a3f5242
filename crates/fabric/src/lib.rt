// The fabric: masters 0 to 3 over one slave, by requests, grants, puts and takes.
#![tactic(auto)]

mod fabric;
mod picking;
mod queue;
mod row;
mod types;
mod waiting;

pub use fabric::Fabric;
pub use types::{Act, Answer, FabricFault, Outcome, Request};

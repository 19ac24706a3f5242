// The register slice: a slave that holds back at most one write beat in front of another slave.
#![tactic(auto)]

mod calls;
mod held;
mod making;
mod register;

pub use held::Held;
pub use making::check;
pub use register::RegisterSlice;

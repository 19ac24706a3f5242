// The slave interface: what a slave shows, what it answers, and what each call does to it.
#![tactic(auto)]

mod admit;
mod channels;
mod fault;
mod given;
mod interface;
mod lanes;
mod made;
mod making;
mod open_burst;
mod response;
mod snapshot;

pub use admit::admitted;
pub use channels::{Channel, ChannelState, Channels, Place, Step};
pub use fault::SlaveFault;
pub use given::Given;
pub use interface::Slave;
pub use lanes::{lane_byte, strays, worst_of};
pub use making::{Made, MakeFault, check_below, is_ready, width_of};
pub use open_burst::OpenBurst;
pub use response::Response;
pub use snapshot::Snapshot;

// Requests of bursts whose beats carry eight bytes.
ghost use Rattle.std.specs.Prelude.{◌≡◌};
ghost use Rattle.workload.specs.Moves.{row_request};

use burst::{BurstKind, RawBurst};
use fabric::{Act, Request};
use slave::Channel;

// The request of an INCR burst of so many beats of eight bytes.
pub fn frame_request(channel: Channel, master: u8, id: u8, qos: u8, start: u32, count: u16) -> Act
    ensures { result ≡ row_request channel master id qos start count }
{
    Act::Request(
        channel,
        Request {
            master,
            id,
            qos,
            burst: RawBurst::new(BurstKind::Incr, start, 3, count),
        },
    )
}

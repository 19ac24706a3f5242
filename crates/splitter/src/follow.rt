// What a splitter does to the slave below while its record and the slave are apart.
ghost use Rattle.slave.specs.Meaning.{told};
ghost use Rattle.splitter.specs.Follows.{follow_after};
ghost use Rattle.std.specs.Prelude.{◌≡◌};

use crate::runs;
use slave::{Channel, Place, Slave};

// Opens the run of the next beat of a place below, where the channel is idle there and not here.
pub(crate) fn follow<S: Slave>(below: &mut S, number: u16, channel: Channel, place: Place)
    ensures { S.meaning below.new ≡ follow_after number channel (told place) (S.meaning below.old) }
{
    if let (Some(open), None) = (place, below.place(channel))
        && let Some((run, _)) = runs::run_at(open.burst, number, open.taken)
    {
        let _ = below.open(channel, run);
    }
}

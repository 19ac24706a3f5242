// What the makings of slaves share: the numbers of their refusals, and the tests of widths and of slaves below.
ghost use Rattle.std.specs.Prelude.{◌≡◌, ℕ, is_some, IfSome, Ok, Err, if◌then◌else◌};
ghost use Rattle.slave.specs.declared.making.MakeFault.TheVariants.{Below};
ghost use Rattle.burst.specs.Rules.{width_bytes};
ghost use Rattle.slave.specs.Making.{make_number, ready, is_width};

use crate::channels::Channel;
use crate::interface::Slave;
use burst::Width;

// Why a slave cannot be made, by the number of the refusal.
#[derive(Clone, Copy, PartialEq, Eq, Debug)]
pub enum MakeFault {
    // A width, a most or a splitter's number outside its rule.
    Measure = 16,
    // A memory's length outside its rule.
    Length = 17,
    // A slave below that is dead or not idle.
    Below = 18,
}

// What a making answers. It is a slave itself, a dead one where the making was refused, so makings nest.
pub type Made<T> = Result<T, MakeFault>;

impl MakeFault {
    // The number of the refusal.
    pub fn number(self) -> u8
        ensures { result ≡ make_number self }
    {
        self as u8
    }
}

// The width of a bus of so many bytes, if there is one. (`TryFrom` would want an error type that says no more than none.)
pub fn width_of(bytes: u8) -> Option<Width>
    ensures some { is_some result ≡ is_width bytes }
    ensures same { IfSome result (λ w. width_bytes w ≡ bytes) }
{
    match bytes {
        1 => Some(Width::One),
        2 => Some(Width::Two),
        4 => Some(Width::Four),
        8 => Some(Width::Eight),
        _ => None,
    }
}

// Whether a slave is live with both channels idle, so that an adapter may stand over it.
pub fn is_ready<S: Slave>(slave: &S) -> bool
    ensures { result ≡ ready (S.Slave.meaning slave.now) }
{
    slave.live() && slave.place(Channel::Write).is_none() && slave.place(Channel::Read).is_none()
}

// The first test of every making over a slave: the slave is ready.
pub fn check_below<S: Slave>(slave: &S) -> Result<(), MakeFault>
    ensures { result ≡ (if ready (S.Slave.meaning slave.now) then Ok tt else Err Below) }
{
    is_ready(slave).then_some(()).ok_or(MakeFault::Below)
}

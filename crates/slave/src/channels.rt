// Both channels of a slave: where each stands, and how a call moves it.
ghost use Rattle.std.specs.Prelude.{◌≡◌};
ghost use Rattle.slave.specs.Channels.{state_at, other};
ghost use Rattle.slave.specs.Meaning.{told, idle};
ghost use Rattle.slave.specs.Acts.{step_answer, step_place, step_worst};
ghost use Rattle.slave.specs.declared.response.Response.TheVariants.{Okay};

use crate::fault::SlaveFault;
use crate::given::Given;
use crate::open_burst::OpenBurst;
use crate::response::Response;
use burst::Burst;

#[derive(Clone, Copy, PartialEq, Eq, Debug)]
pub enum Channel {
    Write,
    Read,
}

// Where a channel stands: at the open burst, or idle.
pub type Place = Option<OpenBurst>;

// A channel's place with the worst response of the open burst so far.
#[derive(Clone, Copy)]
pub struct ChannelState {
    pub place: Place,
    pub worst: Response,
}

// Both channels of a slave.
#[derive(Clone, Copy)]
pub struct Channels {
    pub write: ChannelState,
    pub read: ChannelState,
}

// What a call does to a channel: it opens a burst, or takes a beat that went so. The place is matched together with the call,
// so that no pair of the two is forgotten: the call is a value and not a closure.
#[derive(Clone, Copy)]
pub enum Step {
    Open(Burst),
    Beat(Response),
}

impl ChannelState {
    // A channel without an open burst.
    pub fn idle() -> ChannelState
        ensures place { told result.place ≡ idle }
        ensures worst { result.worst ≡ Okay }
    {
        ChannelState {
            place: None,
            worst: Response::Okay,
        }
    }

    // Opens a burst at an idle channel, or takes the next beat of the open one.
    // The last beat makes the channel idle and answers the worst response.
    pub fn step(&mut self, step: Step) -> Result<Given, SlaveFault>
        ensures answer { result ≡ step_answer (told self.old.place) self.old.worst step }
        ensures place { told self.new.place ≡ step_place (told self.old.place) step }
        ensures worst { self.new.worst ≡ step_worst (told self.old.place) self.old.worst step }
    {
        match (&mut self.place, step) {
            (None, Step::Open(burst)) => {
                self.place = Some(OpenBurst::new(burst));
                self.worst = Response::Okay;
                Ok(Given::More(burst.count))
            }
            (None, Step::Beat(_)) => Err(SlaveFault::NotOpen),
            (Some(_), Step::Open(_)) => Err(SlaveFault::AlreadyOpen),
            (Some(open), Step::Beat(response)) => {
                let worst = self.worst.worse(response);
                let left = open.left();
                if left > 0 {
                    open.taken += 1;
                    self.worst = worst;
                    return Ok(Given::More(left));
                }
                self.place = None;
                self.worst = Response::Okay;
                Ok(Given::Done(worst))
            }
        }
    }
}

impl Channels {
    // Both channels without an open burst.
    pub fn idle() -> Channels
        ensures write { told result.write.place ≡ idle }
        ensures worst { result.write.worst ≡ Okay }
        ensures read { told result.read.place ≡ idle }
        ensures read_worst { result.read.worst ≡ Okay }
    {
        Channels {
            write: ChannelState::idle(),
            read: ChannelState::idle(),
        }
    }

    // Where a channel stands.
    pub fn place(&self, channel: Channel) -> Place
        ensures { result ≡ (state_at channel self.now).place }
    {
        match channel {
            Channel::Write => self.write.place,
            Channel::Read => self.read.place,
        }
    }

    // Opens a burst on a channel, or takes its next beat. The other channel stays.
    pub fn step(&mut self, channel: Channel, step: Step) -> Result<Given, SlaveFault>
        ensures answer { result ≡ step_answer (told (state_at channel self.old).place) (state_at channel self.old).worst step }
        ensures place { told (state_at channel self.new).place ≡ step_place (told (state_at channel self.old).place) step }
        ensures worst { (state_at channel self.new).worst ≡ step_worst (told (state_at channel self.old).place) (state_at channel self.old).worst step }
        ensures stays { state_at (other channel) self.new ≡ state_at (other channel) self.old }
    {
        match channel {
            Channel::Write => self.write.step(step),
            Channel::Read => self.read.step(step),
        }
    }
}

// One channel of the fabric: its requests, and what requests, grants and beats do to it.
ghost use Rattle.std.specs.Prelude.{◌≡◌, ◌+◌, ◌<◌, true, false, length, IfOk, Some, is_ok};
ghost use Rattle.std.specs.Option.{option_and_then};
ghost use Rattle.fabric.specs.Rows.{beat_left};

use crate::row::Open;
use crate::types::{Answer, FabricFault, Outcome, Request};
use crate::waiting::Waiting;
use burst::Width;
use slave::{Channel, Slave};
use std::alloc::{AllocError, Global};

// The last of the masters, which are 0 to 3.
const LAST_MASTER: u8 = 3;

// The highest QoS.
const MOST_QOS: u8 = 15;

// The waiting requests of a channel and the open one, of which a beat is left: without that, nothing bounds the
// count of its beats, and `Open::next` could pass the type.
#[derive(Drop)]
pub struct ChannelQueue {
    waiting: Waiting,
    current: Option<Open>,
    ghost left: { beat_left current ≡ true },
}

impl ChannelQueue {
    ghost use Rattle.fabric.specs.Rows.{moved};
    ghost use Rattle.fabric.specs.Picking.{ByRule};
    ghost use Rattle.fabric.specs.Channels.{queue_of, with_open, no_requests};
    ghost use Rattle.fabric.specs.Acts.{request_answer, request_after, grant_answer, grant_after, grant_slave};
    ghost use Rattle.fabric.specs.Acts.{open_row_answer, open_row_after, open_row_slave, put_test, take_test};

    // A channel without requests.
    pub(crate) fn new(heap: Global) -> Result<ChannelQueue, AllocError>
        ensures { IfOk result (λ q. queue_of q ≡ no_requests) }
    {
        let waiting = Waiting::new(heap)?;
        Ok(ChannelQueue {
            waiting,
            current: None,
        })
    }

    // Lets all requests of the channel go.
    pub(crate) fn clear(&mut self)
        ensures { queue_of self.new ≡ no_requests }
    {
        self.waiting.clear();
        self.current = None;
    }

    // Adds a request of a known master and QoS with a burst that is lawful for width 8, where there is room.
    pub(crate) fn request(&mut self, request: Request) -> Outcome
        ensures answer { result ≡ request_answer (queue_of self.old) request }
        ensures after { queue_of self.new ≡ request_after (queue_of self.old) request }
        ensures refused { is_ok result ≡ false → self.new ≡ self.old }
    {
        if request.master > LAST_MASTER || request.qos > MOST_QOS {
            return Err(FabricFault::Source);
        }
        burst::check(request.burst, Width::Eight)?;
        self.waiting.push(request)?;
        Ok(Answer::Accepted)
    }

    // Opens the request of a row at the slave and takes it out; those still waiting get one more age.
    fn open_row<S: Slave>(&mut self, slave: &mut S, channel: Channel, at: usize) -> Outcome
        requires { at < length (queue_of self.old).rows }
        ensures answer { result ≡ open_row_answer (queue_of self.old) (S.Slave.meaning slave.old) channel at }
        ensures after { queue_of self.new ≡ open_row_after (queue_of self.old) (S.Slave.meaning slave.old) channel at }
        ensures slave { S.Slave.meaning slave.new ≡ open_row_slave (queue_of self.old) (S.Slave.meaning slave.old) channel at }
        ensures refused { is_ok result ≡ false → (self.new ≡ self.old) × (slave.new ≡ slave.old) }
    {
        let request = self.waiting.request(at);
        slave.open(channel, request.burst)?;
        self.waiting.take_out(at);
        self.current = Some(Open { request, taken: 0 });
        Ok(Answer::Granted {
            master: request.master,
            id: request.id,
        })
    }

    // Opens the picked request, where none is open and the slave is idle.
    #[tactic(auto, using(crate::proofs::Rule::by_rule))]
    pub(crate) fn grant<S: Slave>(&mut self, slave: &mut S, channel: Channel) -> Outcome
        ensures answer { result ≡ grant_answer (queue_of self.old) (S.Slave.meaning slave.old) channel }
        ensures after { queue_of self.new ≡ grant_after (queue_of self.old) (S.Slave.meaning slave.old) channel }
        ensures slave { S.Slave.meaning slave.new ≡ grant_slave (queue_of self.old) (S.Slave.meaning slave.old) channel }
        ensures refused { is_ok result ≡ false → (self.new ≡ self.old) × (slave.new ≡ slave.old) }
        ensures rule { ByRule (queue_of self.old).rows }
    {
        if self.current.is_some() {
            return Err(FabricFault::AlreadyOpen);
        }
        let at = self.waiting.pick().ok_or(FabricFault::NoneWaiting)?;
        if slave.place(channel).is_some() {
            return Err(FabricFault::Place);
        }
        self.open_row(slave, channel, at)
    }

    // The open write, once it passes the tests of a put: its master, the slave's place, the last mark.
    pub(crate) fn going_for_put<S: Slave>(
        &self,
        slave: &S,
        master: u8,
        last: bool,
    ) -> Result<Open, FabricFault>
        ensures { result ≡ put_test (queue_of self.now).current (S.Slave.meaning slave.now) master last }
    {
        let going = self.current.ok_or(FabricFault::NotOpen)?;
        if going.request.master != master {
            return Err(FabricFault::OtherMaster);
        }
        if !going.stands(slave, Channel::Write) {
            return Err(FabricFault::Place);
        }
        if last != going.is_last() {
            return Err(FabricFault::LastMark);
        }
        Ok(going)
    }

    // The open read, once it passes the test of a take: the slave's place.
    pub(crate) fn going_for_take<S: Slave>(&self, slave: &S) -> Result<Open, FabricFault>
        ensures { result ≡ take_test (queue_of self.now).current (S.Slave.meaning slave.now) }
    {
        let going = self.current.ok_or(FabricFault::NotOpen)?;
        if !going.stands(slave, Channel::Read) {
            return Err(FabricFault::Place);
        }
        Ok(going)
    }

    // Counts a beat of the open request; the last one closes it.
    pub(crate) fn advance(&mut self)
        ensures { queue_of self.new ≡ with_open (option_and_then moved (queue_of self.old).current) (queue_of self.old) }
    {
        self.current = self.current.and_then(Open::next);
    }
}

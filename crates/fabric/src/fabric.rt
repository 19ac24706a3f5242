// The fabric and its five calls. Each call is lent its slave, so that the holder of both may look at the slave
// between two calls; it asks only what every slave answers, so that any end or adapter may stand below.
ghost use Rattle.std.specs.Prelude.{◌≡◌, ◌<◌, false, is_ok, IfOk, if◌then◌else◌};
ghost use Rattle.fabric.specs.Channels.{channels_of, queue_of, queue_in, with_queue, no_channels};
ghost use Rattle.std.specs.Borrow.{sem};
ghost use Rattle.fabric.specs.Lending.{LendsQueue, with_channel};
ghost use Rattle.fabric.specs.Acts.{request_answer, request_after, grant_answer, grant_after, grant_slave, put_answer, put_after, put_slave, take_answer, take_after, take_slave, create_answer, fits_below};
ghost use Rattle.fabric.specs.Picking.{ByRule};
ghost use Rattle.slave.specs.declared.channels.Channel.TheVariants.{Write, Read};

use crate::queue::ChannelQueue;
use crate::types::{Answer, FabricFault, Outcome, Request};
use burst::Width;
use slave::{Channel, Given, Slave};
use std::alloc::{AllocError, Global};

// Both channels, with requests of masters 0 to 3.
#[derive(Drop)]
pub struct Fabric {
    write: ChannelQueue,
    read: ChannelQueue,
}

// Whether a fabric may stand over a slave: live, idle, full and of width 8.
fn fits<S: Slave>(slave: &S) -> bool
    ensures { result ≡ fits_below (S.Slave.meaning slave.now) }
{
    slave::is_ready(slave) && slave.full() && slave.width() == Width::Eight
}

impl Fabric {
    // One of the channels: what is done to it there is done to the fabric.
    fn queue(&mut self, channel: Channel) -> &mut ChannelQueue
        ensures* writes_back { sem 𝓛 (LendsQueue self.entry channel result) }
        ensures value { queue_of result.now ≡ queue_in self.old channel }
        ensures same { with_channel self.old channel result.now ≡ self.old }
    {
        match channel {
            Channel::Write => &mut self.write,
            Channel::Read => &mut self.read,
        }
    }

    // A fabric without requests. It reserves the memory for all that may ever wait: no later call wants any.
    pub fn new(heap: Global) -> Result<Fabric, AllocError>
        ensures { IfOk result (λ f. channels_of f ≡ no_channels) }
    {
        let write = ChannelQueue::new(heap)?;
        let read = ChannelQueue::new(heap)?;
        Ok(Fabric { write, read })
    }

    // Empties the fabric, over a live, idle and full slave of width 8.
    pub fn create<S: Slave>(&mut self, slave: &S) -> Result<(), FabricFault>
        ensures answer { result ≡ create_answer (S.Slave.meaning slave.now) }
        ensures after { channels_of self.new ≡ (if fits_below (S.Slave.meaning slave.now) then no_channels else channels_of self.old) }
        ensures refused { fits_below (S.Slave.meaning slave.now) ≡ false → self.new ≡ self.old }
    {
        if !fits(slave) {
            return Err(FabricFault::Below);
        }
        self.write.clear();
        self.read.clear();
        Ok(())
    }

    // Adds a waiting request to a channel.
    pub fn request(&mut self, channel: Channel, request: Request) -> Outcome
        ensures answer { result ≡ request_answer (queue_in self.old channel) request }
        ensures after { channels_of self.new ≡ with_queue channel (request_after (queue_in self.old channel) request) (channels_of self.old) }
        ensures refused { is_ok result ≡ false → self.new ≡ self.old }
    {
        self.queue(channel).request(request)
    }

    // Opens the picked request of a channel at the slave.
    pub fn grant<S: Slave>(&mut self, slave: &mut S, channel: Channel) -> Outcome
        ensures answer { result ≡ grant_answer (queue_in self.old channel) (S.Slave.meaning slave.old) channel }
        ensures after { channels_of self.new ≡ with_queue channel (grant_after (queue_in self.old channel) (S.Slave.meaning slave.old) channel) (channels_of self.old) }
        ensures slave { S.Slave.meaning slave.new ≡ grant_slave (queue_in self.old channel) (S.Slave.meaning slave.old) channel }
        ensures refused { is_ok result ≡ false → (self.new ≡ self.old) × (slave.new ≡ slave.old) }
        ensures rule { ByRule (queue_in self.old channel).rows }
    {
        self.queue(channel).grant(slave, channel)
    }

    // Gives the next beat of the open write.
    pub fn put<S: Slave>(
        &mut self,
        slave: &mut S,
        master: u8,
        word: u64,
        strobe: u8,
        last: bool,
    ) -> Outcome
        ensures answer { result ≡ put_answer (queue_in self.old Write) (S.Slave.meaning slave.old) master word strobe last }
        ensures after { channels_of self.new ≡ with_queue Write (put_after (queue_in self.old Write) (S.Slave.meaning slave.old) master word strobe last) (channels_of self.old) }
        ensures slave { S.Slave.meaning slave.new ≡ put_slave (queue_in self.old Write) (S.Slave.meaning slave.old) master word strobe last }
        ensures refused { is_ok result ≡ false → (self.new ≡ self.old) × (slave.new ≡ slave.old) }
    {
        let going = self.write.going_for_put(slave, master, last)?;
        let given = slave.give(word, strobe)?;
        self.write.advance();
        Ok(match given {
            Given::More(left) => Answer::More(left),
            Given::Done(response) => Answer::Done {
                master: going.request.master,
                id: going.request.id,
                response,
            },
        })
    }

    // Takes the next beat of the open read.
    pub fn take<S: Slave>(&mut self, slave: &mut S) -> Outcome
        ensures answer { result ≡ take_answer (queue_in self.old Read) (S.Slave.meaning slave.old) }
        ensures after { channels_of self.new ≡ with_queue Read (take_after (queue_in self.old Read) (S.Slave.meaning slave.old)) (channels_of self.old) }
        ensures slave { S.Slave.meaning slave.new ≡ take_slave (queue_in self.old Read) (S.Slave.meaning slave.old) }
        ensures refused { is_ok result ≡ false → (self.new ≡ self.old) × (slave.new ≡ slave.old) }
    {
        let going = self.read.going_for_take(slave)?;
        let (word, response, left) = slave.take()?;
        self.read.advance();
        Ok(Answer::Beat {
            master: going.request.master,
            id: going.request.id,
            word,
            response,
            left,
        })
    }
}

// A splitter and its steps.
ghost use Rattle.burst.specs.Rules.{width_bytes};
ghost use Rattle.slave.specs.Channels.{state_at};
ghost use Rattle.slave.specs.Meaning.{sound_stand, told};
ghost use Rattle.slave.specs.declared.channels.Channel.{Channel};
ghost use Rattle.splitter.specs.Fits.{stands};
ghost use Rattle.std.specs.Prelude.{◌≡◌, true};

use crate::{follow, runs};
use burst::{Burst, RawBurst, Width};
use slave::{Channel, Channels, Given, Response, Slave, SlaveFault, Step};

// Sends every burst down in runs of at most `number` beats. The write keeps the worst response of the runs that are over.
// Nobody else reaches the slave below: it is live, takes that many beats at once, and stands where the record implies.
// Its width is kept here, so that a question for it does not run down a pile of splitters.
#[derive(Drop)]
pub struct Splitter<S: Slave> {
    pub(crate) below: S,
    pub(crate) number: u16,
    pub(crate) width: Width,
    pub(crate) channels: Channels,
    ghost placed: { stands number channels (S.meaning below) ≡ true },
    ghost wide: { width_bytes width ≡ (S.meaning below).width },
    ghost opens: { (channel : Channel) → sound_stand (width_bytes width) (told (state_at channel channels).place) ≡ true },
}

impl<S: Slave> Splitter<S> {
    ghost use Rattle.burst.specs.Beats.{raw_of, IsLawful};
    ghost use Rattle.slave.specs.Acts.{give_answer, give_after, take_answer, take_after, opened};
    ghost use Rattle.slave.specs.Meaning.{is_idle, stand_at};
    ghost use Rattle.splitter.specs.Fits.{run_below, run_stand, stand_below};
    ghost use Rattle.splitter.specs.Follows.{below_open, below_give, below_take};
    ghost use Rattle.splitter.specs.Shows.{shows, number_of, below_of};
    ghost use Rattle.std.specs.Prelude.{Some, false, is_ok};

    // The slave below. It is live, and stands where the splitter's own channels imply.
    pub fn below(&self) -> &S
        ensures below { result.now ≡ below_of self.now }
        ensures live { (S.meaning result.now).live ≡ true }
        ensures stands { (channel : Channel) → stand_at (S.meaning result.now) channel ≡ stand_below (number_of self.now) (stand_at (shows S.meaning self.now) channel) }
    {
        &self.below
    }

    // The slave below itself.
    pub fn into_below(self) -> S
        ensures { result ≡ below_of self }
    {
        self.below
    }

    // The run that stands open below on a channel, and which beat of it is next; none while the channel is idle.
    pub fn run_below(&self, channel: Channel) -> Option<(RawBurst, u16)>
        ensures answer { result ≡ run_below (number_of self.now) (stand_at (shows S.meaning self.now) channel) }
        ensures stands { stand_at (S.meaning (below_of self.now)) channel ≡ run_stand result }
    {
        let open = self.channels.place(channel)?;
        runs::run_at(open.burst, self.number, open.taken)
    }

    // Opens a burst, and its first run below.
    pub(crate) fn begin(&mut self, channel: Channel, burst: Burst)
        requires free { is_idle (stand_at (shows S.meaning self.old) channel) ≡ true }
        requires lawful { IsLawful (shows S.meaning self.old).width (raw_of burst) }
        ensures after { shows S.meaning self.new ≡ opened channel (raw_of burst) (shows S.meaning self.old) }
        ensures number { number_of self.new ≡ number_of self.old }
        ensures below { S.meaning (below_of self.new) ≡ below_open S.meaning self.old channel (raw_of burst) }
    {
        // The channel is idle, so the step opens it.
        let _ = self.channels.step(channel, Step::Open(burst));
        let place = self.channels.place(channel);
        follow::follow(&mut self.below, self.number, channel, place);
    }

    // Gives a beat below, and opens the next run where it ended one.
    pub(crate) fn give_beat(&mut self, word: u64, strobe: u8) -> Result<Given, SlaveFault>
        ensures answer { result ≡ give_answer (shows S.meaning self.old) word strobe }
        ensures after { shows S.meaning self.new ≡ give_after (shows S.meaning self.old) word strobe }
        ensures number { number_of self.new ≡ number_of self.old }
        ensures below { S.meaning (below_of self.new) ≡ below_give S.meaning self.old word strobe }
        ensures refused { is_ok result ≡ false → self.new ≡ self.old }
    {
        let given = self.below.give(word, strobe)?;
        let answer = self.channels.write.step(Step::Beat(given.response()));
        let place = self.channels.write.place;
        follow::follow(&mut self.below, self.number, Channel::Write, place);
        answer
    }

    // Takes a beat below, and opens the next run where it ended one.
    pub(crate) fn take_beat(&mut self) -> Result<(u64, Response, u16), SlaveFault>
        ensures answer { result ≡ take_answer (shows S.meaning self.old) }
        ensures after { shows S.meaning self.new ≡ take_after (shows S.meaning self.old) }
        ensures number { number_of self.new ≡ number_of self.old }
        ensures below { S.meaning (below_of self.new) ≡ below_take S.meaning self.old }
        ensures refused { is_ok result ≡ false → self.new ≡ self.old }
    {
        let (word, response, _) = self.below.take()?;
        let answer = self.channels.read.step(Step::Beat(Response::Okay));
        let place = self.channels.read.place;
        follow::follow(&mut self.below, self.number, Channel::Read, place);
        Ok((word, response, answer?.left()))
    }
}

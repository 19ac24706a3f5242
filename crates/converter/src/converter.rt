// A converter over a slave, and the steps that its calls are made of.
ghost use Rattle.converter.specs.Fits.{OpensFit};
ghost use Rattle.slave.specs.Making.{ready};
ghost use Rattle.std.specs.Prelude.{◌≡◌, true};

use crate::beat::BusBeat;
use crate::pieces;
use burst::{Burst, Width};
use slave::{Channel, Channels, Given, OpenBurst, Response, Slave, SlaveFault, Step};

// A full slave of its own width over another slave. Nobody else reaches the slave below: between the converter's calls it
// is live, and both its channels are idle.
#[derive(Drop)]
pub struct Converter<S: Slave> {
    pub(crate) below: S,
    pub(crate) width: Width,
    pub(crate) channels: Channels,
    ghost idle: { ready (S.meaning below) ≡ true },
    ghost opens: { OpensFit width channels },
}

impl<S: Slave> Converter<S> {
    ghost use Rattle.burst.specs.Beats.{raw_of, IsLawful, address_of, last_of};
    ghost use Rattle.burst.specs.Rules.{width_bytes};
    ghost use Rattle.converter.specs.Sent.{sent_below, fetched_below};
    ghost use Rattle.converter.specs.Shows.{converter_shows, below_of, width_of};
    ghost use Rattle.slave.specs.Acts.{give_answer, give_after, take_answer, take_after, opened};
    ghost use Rattle.slave.specs.Channels.{state_at};
    ghost use Rattle.slave.specs.Lanes.{stray};
    ghost use Rattle.std.specs.Prelude.{false, Some, None, Ok, is_ok};

    // The slave below. It is live, and both its channels are idle.
    pub fn below(&self) -> &S
        ensures below { result.now ≡ below_of self.now }
        ensures idle { ready (S.meaning result.now) ≡ true }
    {
        &self.below
    }

    // The slave below itself.
    pub fn into_below(self) -> S
        ensures { result ≡ below_of self }
    {
        self.below
    }

    // Opens a burst at an idle channel.
    #[tactic(auto, using(crate::proofs::Told::open_opens))]
    pub(crate) fn begin(&mut self, channel: Channel, burst: Burst)
        requires free { (state_at channel self.old.channels).place ≡ None }
        requires lawful { IsLawful (width_bytes self.old.width) (raw_of burst) }
        ensures after { converter_shows S.meaning self.new
            ≡ opened channel (raw_of burst) (converter_shows S.meaning self.old) }
        ensures below { below_of self.new ≡ below_of self.old }
        ensures width { width_of self.new ≡ width_of self.old }
    {
        let _ = self.channels.step(channel, Step::Open(burst));
    }

    // Whether a strobe leaves the lanes of the next beat of the open write.
    pub(crate) fn strays(&self, at: OpenBurst, strobe: u8) -> bool
        requires { self.now.channels.write.place ≡ Some at }
        ensures { result ≡ stray (width_bytes self.now.width)
            (address_of (raw_of at.burst) at.taken) (last_of (raw_of at.burst) at.taken) strobe }
    {
        at.strays(self.width, strobe)
    }

    // Takes the next beat of the open write, whose strobe keeps to its lanes.
    pub(crate) fn give_beat(
        &mut self,
        at: OpenBurst,
        word: u64,
        strobe: u8,
    ) -> Result<Given, SlaveFault>
        requires stands { self.old.channels.write.place ≡ Some at }
        requires kept { stray (width_bytes self.old.width)
            (address_of (raw_of at.burst) at.taken) (last_of (raw_of at.burst) at.taken) strobe
            ≡ false }
        ensures answer { result ≡ give_answer (converter_shows S.meaning self.old) word strobe }
        ensures after { converter_shows S.meaning self.new
            ≡ give_after (converter_shows S.meaning self.old) word strobe }
        ensures below { S.meaning (below_of self.new) ≡ sent_below
            (converter_shows S.meaning self.old) (S.meaning (below_of self.old)) word strobe }
        ensures width { width_of self.new ≡ width_of self.old }
        ensures taken { is_ok result ≡ true }
    {
        let beat = BusBeat::next_of(at, self.width);
        let response = pieces::send(&mut self.below, beat, word, strobe);
        self.channels.step(Channel::Write, Step::Beat(response))
    }

    // Answers the next beat of the open read.
    pub(crate) fn take_beat(&mut self, at: OpenBurst) -> (u64, Response, u16)
        requires { self.old.channels.read.place ≡ Some at }
        ensures answer { Ok result ≡ take_answer (converter_shows S.meaning self.old) }
        ensures after { converter_shows S.meaning self.new
            ≡ take_after (converter_shows S.meaning self.old) }
        ensures below { S.meaning (below_of self.new) ≡ S.meaning (below_of self.old) }
        ensures fetched { (result.0, result.1, S.meaning (below_of self.new))
            ≡ fetched_below (converter_shows S.meaning self.old) (S.meaning (below_of self.old)) }
        ensures width { width_of self.new ≡ width_of self.old }
    {
        let beat = BusBeat::next_of(at, self.width);
        let (word, response) = pieces::fetch(&mut self.below, beat);
        let _ = self.channels.step(Channel::Read, Step::Beat(response));
        (word, response, at.left())
    }
}

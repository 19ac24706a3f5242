// The splitter as a slave: full, with the width, the bytes and the kinds below.
ghost use Rattle.slave.specs.Acts.{open_answer, open_after, give_answer, give_after, take_answer, take_after};
ghost use Rattle.splitter.specs.Follows.{below_open, below_give, below_take};
ghost use Rattle.splitter.specs.Shows.{shows, number_of, below_of};
ghost use Rattle.splitter.specs.Sound.{shows_sound};
ghost use Rattle.std.specs.Prelude.{◌≡◌, false, is_ok};

use crate::splitter::Splitter;
use burst::{MOST_BEATS, RawBurst, Width};
use slave::{Channel, Given, Place, Response, Slave, SlaveFault};

impl<S: Slave> Slave for Splitter<S> {
    ghost meaning = { shows S.meaning };

    ghost sound = { λ x. shows_sound S.meaning x x.wide x.opens (S.sound x.below) };

    fn live(&self) -> bool {
        true
    }

    fn width(&self) -> Width {
        self.width
    }

    fn most(&self) -> u16 {
        MOST_BEATS
    }

    fn full(&self) -> bool {
        true
    }

    fn place(&self, channel: Channel) -> Place {
        self.channels.place(channel)
    }

    // Beside what the interface says, each call keeps the number, and says what the slave below is after it.
    fn open(&mut self, channel: Channel, burst: RawBurst) -> Result<(), SlaveFault>
        ensures answer { result ≡ open_answer (shows S.meaning self.old) channel burst }
        ensures after { shows S.meaning self.new ≡ open_after (shows S.meaning self.old) channel burst }
        ensures number { number_of self.new ≡ number_of self.old }
        ensures below { S.meaning (below_of self.new) ≡ below_open S.meaning self.old channel burst }
        ensures refused { is_ok result ≡ false → self.new ≡ self.old }
    {
        if self.place(channel).is_some() {
            return Err(SlaveFault::AlreadyOpen);
        }
        let burst = slave::admitted(burst, self.width(), self.most(), self.full())?;
        self.begin(channel, burst);
        Ok(())
    }

    fn give(&mut self, word: u64, strobe: u8) -> Result<Given, SlaveFault>
        ensures answer { result ≡ give_answer (shows S.meaning self.old) word strobe }
        ensures after { shows S.meaning self.new ≡ give_after (shows S.meaning self.old) word strobe }
        ensures number { number_of self.new ≡ number_of self.old }
        ensures below { S.meaning (below_of self.new) ≡ below_give S.meaning self.old word strobe }
        ensures refused { is_ok result ≡ false → self.new ≡ self.old }
    {
        self.give_beat(word, strobe)
    }

    fn take(&mut self) -> Result<(u64, Response, u16), SlaveFault>
        ensures answer { result ≡ take_answer (shows S.meaning self.old) }
        ensures after { shows S.meaning self.new ≡ take_after (shows S.meaning self.old) }
        ensures number { number_of self.new ≡ number_of self.old }
        ensures below { S.meaning (below_of self.new) ≡ below_take S.meaning self.old }
        ensures refused { is_ok result ≡ false → self.new ≡ self.old }
    {
        self.take_beat()
    }
}

// The converter's calls as a slave.
ghost use Rattle.converter.specs.Sent.{sent_below, fetched_below};
ghost use Rattle.converter.specs.Shows.{converter_shows, below_of, width_of};
ghost use Rattle.converter.specs.Sound.{convert_sound};
ghost use Rattle.slave.specs.Acts.{open_answer, open_after, give_answer, give_after, take_answer, take_after};
ghost use Rattle.std.specs.Prelude.{◌≡◌, false, is_ok, IfOk};

use crate::converter::Converter;
use burst::{MOST_BEATS, RawBurst, Width};
use slave::{Channel, Given, Place, Response, Slave, SlaveFault};

impl<S: Slave> Slave for Converter<S> {
    ghost meaning = { converter_shows S.meaning };

    ghost sound = { λ c. convert_sound c.width c.channels (S.meaning c.below) (S.sound c.below) c.opens };

    fn live(&self) -> bool {
        true
    }

    fn width(&self) -> Width {
        self.width
    }

    fn most(&self) -> u16 {
        MOST_BEATS
    }

    fn full(&self) -> bool {
        true
    }

    fn place(&self, channel: Channel) -> Place {
        self.channels.place(channel)
    }

    // Beside what the interface says, each call says what it does to the slave below, and keeps the width.
    fn open(&mut self, channel: Channel, burst: RawBurst) -> Result<(), SlaveFault>
        ensures answer { result ≡ open_answer (converter_shows S.meaning self.old) channel burst }
        ensures after { converter_shows S.meaning self.new
            ≡ open_after (converter_shows S.meaning self.old) channel burst }
        ensures below { below_of self.new ≡ below_of self.old }
        ensures width { width_of self.new ≡ width_of self.old }
        ensures refused { is_ok result ≡ false → self.new ≡ self.old }
    {
        if self.channels.place(channel).is_some() {
            return Err(SlaveFault::AlreadyOpen);
        }
        let burst = slave::admitted(burst, self.width, MOST_BEATS, true)?;
        self.begin(channel, burst);
        Ok(())
    }

    // A stray strobe is refused before anything goes down.
    fn give(&mut self, word: u64, strobe: u8) -> Result<Given, SlaveFault>
        ensures answer { result ≡ give_answer (converter_shows S.meaning self.old) word strobe }
        ensures after { converter_shows S.meaning self.new
            ≡ give_after (converter_shows S.meaning self.old) word strobe }
        ensures below { S.meaning (below_of self.new) ≡ sent_below
            (converter_shows S.meaning self.old) (S.meaning (below_of self.old)) word strobe }
        ensures width { width_of self.new ≡ width_of self.old }
        ensures refused { is_ok result ≡ false → self.new ≡ self.old }
    {
        let open = self.channels.write.place.ok_or(SlaveFault::NotOpen)?;
        if self.strays(open, strobe) {
            return Err(SlaveFault::Strobe);
        }
        self.give_beat(open, word, strobe)
    }

    fn take(&mut self) -> Result<(u64, Response, u16), SlaveFault>
        ensures answer { result ≡ take_answer (converter_shows S.meaning self.old) }
        ensures after { converter_shows S.meaning self.new
            ≡ take_after (converter_shows S.meaning self.old) }
        ensures below { S.meaning (below_of self.new) ≡ S.meaning (below_of self.old) }
        ensures fetched { IfOk result (λ x. (x.0, x.1, S.meaning (below_of self.new))
            ≡ fetched_below (converter_shows S.meaning self.old) (S.meaning (below_of self.old))) }
        ensures width { width_of self.new ≡ width_of self.old }
        ensures refused { is_ok result ≡ false → self.new ≡ self.old }
    {
        let open = self.channels.read.place.ok_or(SlaveFault::NotOpen)?;
        Ok(self.take_beat(open))
    }
}

// The recording slave's calls: those below.
ghost use Rattle.arrayvec.specs.ArrayVec.{array_vec_len};
ghost use Rattle.recorder.specs.Record.{noted, counted, noted_on, counted_on};
ghost use Rattle.slave.specs.Acts.{open_answer, open_after, give_answer, give_after, take_answer, take_after};
ghost use Rattle.std.specs.Prelude.{◌≡◌, false, is_ok};

use crate::record::{Call, Recorder};
use burst::{RawBurst, Width};
use slave::{Channel, Given, Place, Response, Slave, SlaveFault};

impl<S> Recorder<S> {
    // Notes a call.
    fn note(&mut self, call: Call)
        ensures below { self.new.below ≡ self.old.below }
        ensures calls { self.new.calls.items ≡ noted self.old.calls.items call }
        ensures count { array_vec_len self.new.calls ≡ counted (array_vec_len self.old.calls) }
    {
        if !self.calls.is_full() {
            self.calls.push(call);
        }
    }
}

// A call that is taken below is noted, and a refused one is not.
impl<S: Slave> Slave for Recorder<S> {
    ghost meaning = { λ p. S.meaning p.below };

    ghost sound = { λ x. S.sound x.below };

    fn live(&self) -> bool {
        self.below.live()
    }

    fn width(&self) -> Width {
        self.below.width()
    }

    fn most(&self) -> u16 {
        self.below.most()
    }

    fn full(&self) -> bool {
        self.below.full()
    }

    fn place(&self, channel: Channel) -> Place {
        self.below.place(channel)
    }

    fn open(&mut self, channel: Channel, burst: RawBurst) -> Result<(), SlaveFault>
        ensures answer { result ≡ open_answer (S.meaning self.old.below) channel burst }
        ensures after { S.meaning self.new.below
            ≡ open_after (S.meaning self.old.below) channel burst }
        ensures calls { self.new.calls.items
            ≡ noted_on result self.old.calls.items (Call.Open channel burst) }
        ensures count { array_vec_len self.new.calls ≡ counted_on result (array_vec_len self.old.calls) }
        ensures refused { is_ok result ≡ false → self.new ≡ self.old }
    {
        self.below.open(channel, burst)?;
        self.note(Call::Open(channel, burst));
        Ok(())
    }

    fn give(&mut self, word: u64, strobe: u8) -> Result<Given, SlaveFault>
        ensures answer { result ≡ give_answer (S.meaning self.old.below) word strobe }
        ensures after { S.meaning self.new.below
            ≡ give_after (S.meaning self.old.below) word strobe }
        ensures calls { self.new.calls.items
            ≡ noted_on result self.old.calls.items (Call.Give word strobe) }
        ensures count { array_vec_len self.new.calls ≡ counted_on result (array_vec_len self.old.calls) }
        ensures refused { is_ok result ≡ false → self.new ≡ self.old }
    {
        let given = self.below.give(word, strobe)?;
        self.note(Call::Give { word, strobe });
        Ok(given)
    }

    fn take(&mut self) -> Result<(u64, Response, u16), SlaveFault>
        ensures answer { result ≡ take_answer (S.meaning self.old.below) }
        ensures after { S.meaning self.new.below ≡ take_after (S.meaning self.old.below) }
        ensures calls { self.new.calls.items ≡ noted_on result self.old.calls.items Call.Take }
        ensures count { array_vec_len self.new.calls ≡ counted_on result (array_vec_len self.old.calls) }
        ensures refused { is_ok result ≡ false → self.new ≡ self.old }
    {
        let taken = self.below.take()?;
        self.note(Call::Take);
        Ok(taken)
    }
}

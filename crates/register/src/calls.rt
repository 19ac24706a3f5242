// The register slice's calls as a slave.
ghost use Rattle.register.specs.Shows.{shows, below_of, held_of, held_after, below_after, held_taken, below_taken};
ghost use Rattle.register.specs.Sound.{slice_sound};
ghost use Rattle.slave.specs.Acts.{open_answer, open_after, give_answer, give_after, take_answer, take_after};
ghost use Rattle.std.specs.Prelude.{◌≡◌, false, is_ok};

use crate::register::RegisterSlice;
use burst::{RawBurst, Width};
use slave::{Channel, Given, Place, Response, Slave, SlaveFault};

impl<S: Slave> Slave for RegisterSlice<S> {
    ghost meaning = { shows S.meaning };

    ghost sound = { λ x. slice_sound x.held (S.meaning x.below) (S.sound x.below) };

    fn live(&self) -> bool {
        true
    }

    #[tactic(auto, using(slave::proofs::Snapshots::known))]
    fn width(&self) -> Width {
        self.snapshot.width
    }

    #[tactic(auto, using(slave::proofs::Snapshots::known))]
    fn most(&self) -> u16 {
        self.snapshot.most
    }

    #[tactic(auto, using(slave::proofs::Snapshots::known))]
    fn full(&self) -> bool {
        self.snapshot.full
    }

    #[tactic(auto, using(slave::proofs::Snapshots::known_place))]
    fn place(&self, channel: Channel) -> Place {
        self.snapshot.place(channel)
    }

    // While a beat is held its burst is open. Beside what the interface says, each call says which beat is held then, and
    // what has gone down.
    fn open(&mut self, channel: Channel, burst: RawBurst) -> Result<(), SlaveFault>
        ensures answer { result ≡ open_answer (shows S.meaning self.old) channel burst }
        ensures after { shows S.meaning self.new ≡ open_after (shows S.meaning self.old) channel burst }
        ensures held { held_of self.new ≡ held_of self.old }
        ensures below { S.meaning (below_of self.new) ≡ open_after (S.meaning (below_of self.old)) channel burst }
        ensures refused { is_ok result ≡ false → self.new ≡ self.old }
    {
        if self.snapshot.place(channel).is_some() {
            return Err(SlaveFault::AlreadyOpen);
        }
        self.below.open(channel, burst)?;
        self.snapshot.set_place(channel, self.below.place(channel));
        Ok(())
    }

    fn give(&mut self, word: u64, strobe: u8) -> Result<Given, SlaveFault>
        ensures answer { result ≡ give_answer (shows S.meaning self.old) word strobe }
        ensures after { shows S.meaning self.new ≡ give_after (shows S.meaning self.old) word strobe }
        ensures held { held_of self.new ≡ held_after (held_of self.old) word strobe result }
        ensures below { S.meaning (below_of self.new) ≡ below_after (S.meaning (below_of self.old)) (held_of self.old) word strobe result }
        ensures refused { is_ok result ≡ false → self.new ≡ self.old }
    {
        let at = self.snapshot.write.ok_or(SlaveFault::NotOpen)?;
        self.give_beat(at, word, strobe)
    }

    // The held beat goes down before a read beat is taken, and nothing does where none is open.
    fn take(&mut self) -> Result<(u64, Response, u16), SlaveFault>
        ensures answer { result ≡ take_answer (shows S.meaning self.old) }
        ensures after { shows S.meaning self.new ≡ take_after (shows S.meaning self.old) }
        ensures held { held_of self.new ≡ held_taken (held_of self.old) result }
        ensures below { S.meaning (below_of self.new) ≡ below_taken (S.meaning (below_of self.old)) (held_of self.old) result }
        ensures refused { is_ok result ≡ false → self.new ≡ self.old }
    {
        let Some(at) = self.snapshot.read else {
            return Err(SlaveFault::NotOpen);
        };
        self.flush();
        self.take_beat(at)
    }
}

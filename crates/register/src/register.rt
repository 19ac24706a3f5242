// A slave with a write beat held in front of it.
ghost use Rattle.register.specs.Fits.{behind, holds_at};
ghost use Rattle.slave.specs.Snapshots.{answers_for};
ghost use Rattle.std.specs.Prelude.{◌≡◌, true};

use crate::held::Held;
use slave::{Given, OpenBurst, Response, Slave, SlaveFault, Snapshot};

// A slice over a slave. It shows what the slave below shows once the held beat is passed down.
// Nobody else reaches the slave below: it is live, and takes the held beat. What the slice answers to questions it keeps,
// since the slave below may be a pile.
#[derive(Drop)]
pub struct RegisterSlice<S: Slave> {
    pub(crate) below: S,
    pub(crate) held: Option<Held>,
    pub(crate) snapshot: Snapshot,
    ghost placed: { holds_at held (S.meaning below) ≡ true },
    ghost known: { answers_for snapshot (behind (S.meaning below) held) ≡ true },
}

impl<S: Slave> RegisterSlice<S> {
    ghost use Rattle.register.specs.Shows.{shows, below_of, held_of, held_after, below_after, held_taken};
    ghost use Rattle.slave.specs.Acts.{give_answer, give_after, take_answer, take_after};
    ghost use Rattle.slave.specs.Meaning.{told};
    ghost use Rattle.std.specs.Prelude.{Some, None, false, is_ok};

    // The slave below. It is live, and a held beat fits its open write.
    pub fn below(&self) -> &S
        ensures below { result.now ≡ below_of self.now }
        ensures placed { holds_at (held_of self.now) (S.meaning result.now) ≡ true }
    {
        &self.below
    }

    // The slave below itself, once a held beat is passed down.
    pub fn into_below(mut self) -> S
        ensures { S.meaning result ≡ shows S.meaning self }
    {
        self.flush();
        self.below
    }

    // Passes the held beat down, where it fits. That changes nothing that the slice shows.
    pub(crate) fn flush(&mut self)
        ensures same { S.meaning (below_of self.new) ≡ shows S.meaning self.old }
        ensures shown { shows S.meaning self.new ≡ shows S.meaning self.old }
        ensures empty { held_of self.new ≡ None }
        ensures snapshot { self.new.snapshot ≡ self.old.snapshot }
    {
        if let Some(beat) = self.held.take() {
            let _ = self.below.give(beat.word, beat.strobe);
        }
    }

    // Takes the next read beat from below, where no write beat is held.
    pub(crate) fn take_beat(&mut self, at: OpenBurst) -> Result<(u64, Response, u16), SlaveFault>
        requires none { held_of self.old ≡ None }
        requires open { self.old.snapshot.read ≡ Some at }
        ensures answer { result ≡ take_answer (shows S.meaning self.old) }
        ensures after { shows S.meaning self.new ≡ take_after (shows S.meaning self.old) }
        ensures held { held_of self.new ≡ held_taken (held_of self.old) result }
        ensures below { S.meaning (below_of self.new) ≡ take_after (S.meaning (below_of self.old)) }
        ensures taken { is_ok result ≡ true }
    {
        let taken = self.below.take();
        self.snapshot.read = at.next();
        taken
    }

    // Takes a write beat of the open burst: the held beat goes down, and this one is held or, as the last, goes down too.
    pub(crate) fn give_beat(
        &mut self,
        at: OpenBurst,
        word: u64,
        strobe: u8,
    ) -> Result<Given, SlaveFault>
        requires { (shows S.meaning self.old).write ≡ told (Some at) }
        ensures answer { result ≡ give_answer (shows S.meaning self.old) word strobe }
        ensures after { shows S.meaning self.new ≡ give_after (shows S.meaning self.old) word strobe }
        ensures held { held_of self.new ≡ held_after (held_of self.old) word strobe result }
        ensures below { S.meaning (below_of self.new) ≡ below_after (S.meaning (below_of self.old)) (held_of self.old) word strobe result }
        ensures refused { is_ok result ≡ false → self.new ≡ self.old }
    {
        if at.strays(self.snapshot.width, strobe) {
            return Err(SlaveFault::Strobe);
        }
        self.flush();
        self.snapshot.write = at.next();
        let left = at.left();
        if left == 0 {
            return self.below.give(word, strobe);
        }
        self.held = Some(Held { word, strobe });
        Ok(Given::More(left))
    }
}

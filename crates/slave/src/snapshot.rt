// The answers to a slave's questions, kept so that nobody asks down a pile for them.
ghost use Rattle.burst.specs.Rules.{width_bytes};
ghost use Rattle.slave.specs.Meaning.{told};
ghost use Rattle.slave.specs.Snapshots.{answers_for, place_at, with_place};
ghost use Rattle.std.specs.Prelude.{◌≡◌, true};

use crate::channels::{Channel, Place};
use crate::interface::Slave;
use burst::Width;

// What a live slave answers to its questions.
#[derive(Clone, Copy)]
pub struct Snapshot {
    pub width: Width,
    pub most: u16,
    pub full: bool,
    pub write: Place,
    pub read: Place,
}

impl Snapshot {
    // Asks a slave each of its questions once.
    pub fn of<S: Slave>(slave: &S) -> Snapshot
        ensures width { width_bytes result.width ≡ (S.Slave.meaning slave.now).width }
        ensures most { result.most ≡ (S.Slave.meaning slave.now).most }
        ensures full { result.full ≡ (S.Slave.meaning slave.now).full }
        ensures write { told result.write ≡ (S.Slave.meaning slave.now).write }
        ensures read { told result.read ≡ (S.Slave.meaning slave.now).read }
        ensures kept { (S.Slave.meaning slave.now).live ≡ true → answers_for result (S.Slave.meaning slave.now) ≡ true }
    {
        Snapshot {
            width: slave.width(),
            most: slave.most(),
            full: slave.full(),
            write: slave.place(Channel::Write),
            read: slave.place(Channel::Read),
        }
    }

    // Keeps that a channel stands elsewhere.
    pub fn set_place(&mut self, channel: Channel, place: Place)
        ensures { self.new ≡ with_place channel place self.old }
    {
        match channel {
            Channel::Write => self.write = place,
            Channel::Read => self.read = place,
        }
    }

    // Where a channel stands.
    pub fn place(&self, channel: Channel) -> Place
        ensures { result ≡ place_at self.now channel }
    {
        match channel {
            Channel::Write => self.write,
            Channel::Read => self.read,
        }
    }
}

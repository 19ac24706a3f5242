// A waiting request and an open one.
ghost use Rattle.std.specs.Prelude.{◌≡◌, ◌+◌, ◌<◌};
ghost use Rattle.fabric.specs.Rows.{is_last, moved, older};
ghost use Rattle.fabric.specs.Rows.{alike as alike_rows, rank as rank_of};
ghost use Rattle.fabric.specs.Acts.{stands};

use crate::types::Request;
use slave::{Channel, Slave};

// The highest rank; no age goes above it, since by then the rank is the highest.
const TOP: u8 = 15;

// A waiting request with its age.
#[derive(Clone, Copy)]
pub struct Row {
    pub request: Request,
    pub age: u8,
}

// The open request with the number of beats taken: a request as it was asked for, and so no `OpenBurst` of a slave, of which
// the burst is checked. That a beat is left is an invariant of the channel and not of this record,
// since definitions make such records with nothing known of the beats.
#[derive(Clone, Copy)]
pub struct Open {
    pub request: Request,
    pub taken: u16,
}

impl Row {
    // The smaller of 15 and QoS + age.
    pub(crate) fn rank(&self) -> u16
        ensures { result ≡ rank_of self.now }
    {
        (u16::from(self.request.qos) + u16::from(self.age)).min(TOP.into())
    }

    // Whether both are of the same master and ID.
    pub(crate) fn alike(&self, other: &Row) -> bool
        ensures { result ≡ alike_rows self.now other.now }
    {
        (self.request.master, self.request.id) == (other.request.master, other.request.id)
    }

    // One more age, up to the highest rank.
    pub(crate) fn grow(&mut self)
        ensures { self.new ≡ older self.old }
    {
        self.age = self.age.saturating_add(1).min(TOP);
    }
}

impl Open {
    // Whether the next beat is the last one.
    pub(crate) fn is_last(self) -> bool
        ensures { result ≡ is_last self }
    {
        u32::from(self.taken) + 1 == self.request.burst.count.into()
    }

    // The request with its next beat taken; none after the last.
    pub(crate) fn next(self) -> Option<Open>
        requires { self.taken < self.request.burst.count }
        ensures { result ≡ moved self }
    {
        if self.is_last() {
            return None;
        }
        Some(Open {
            taken: self.taken + 1,
            ..self
        })
    }

    // Whether the slave's channel stands at the recorded burst and beat.
    pub(crate) fn stands<S: Slave>(self, slave: &S, channel: Channel) -> bool
        ensures { result ≡ stands self (S.Slave.meaning slave.now) channel }
    {
        slave
            .place(channel)
            .is_some_and(|open| open.is_at(self.request.burst, self.taken))
    }
}

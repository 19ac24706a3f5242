// The interface of every slave.
ghost use Rattle.burst.specs.Rules.{width_bytes};
ghost use Rattle.slave.specs.Acts.{open_answer, open_after, give_answer, give_after, take_answer, take_after};
ghost use Rattle.slave.specs.Meaning.{Meaning, Sound, stand_at, told};
ghost use Rattle.std.specs.Prelude.{◌≡◌, false, is_ok};

use crate::channels::{Channel, Place};
use crate::fault::SlaveFault;
use crate::given::Given;
use crate::response::Response;
use burst::{RawBurst, Width};

// A slave, by what it shows. Each call's answer and the slave after it follow from what it showed before.
pub trait Slave {
    ghost meaning: { Self → Meaning };

    // whether the slave answers at all
    fn live(&self) -> bool
        ensures { result ≡ (meaning self.now).live };

    // how many bytes its bus carries at once
    fn width(&self) -> Width
        ensures { width_bytes result ≡ (meaning self.now).width };

    // the most beats of a burst
    fn most(&self) -> u16
        ensures { result ≡ (meaning self.now).most };

    // whether it takes every lawful burst
    fn full(&self) -> bool
        ensures { result ≡ (meaning self.now).full };

    // where a channel stands; a write channel without its worst response
    fn place(&self, channel: Channel) -> Place
        ensures { told result ≡ stand_at (meaning self.now) channel };

    // opens a burst on a channel
    fn open(&mut self, channel: Channel, burst: RawBurst) -> Result<(), SlaveFault>
        ensures answer { result ≡ open_answer (meaning self.old) channel burst }
        ensures after { meaning self.new ≡ open_after (meaning self.old) channel burst }
        ensures refused { is_ok result ≡ false → self.new ≡ self.old };

    // gives the next write beat: word and strobe are the two that a beat brings, as the interface names them
    fn give(&mut self, word: u64, strobe: u8) -> Result<Given, SlaveFault>
        ensures answer { result ≡ give_answer (meaning self.old) word strobe }
        ensures after { meaning self.new ≡ give_after (meaning self.old) word strobe }
        ensures refused { is_ok result ≡ false → self.new ≡ self.old };

    // takes the next read beat: its word, its response and the beats left
    fn take(&mut self) -> Result<(u64, Response, u16), SlaveFault>
        ensures answer { result ≡ take_answer (meaning self.old) }
        ensures after { meaning self.new ≡ take_after (meaning self.old) }
        ensures refused { is_ok result ≡ false → self.new ≡ self.old };

    ghost sound: { (x : Self) → Sound (meaning x) };
}

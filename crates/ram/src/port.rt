// The port of memory: what a slave has beside its bytes, and how each call goes through it.
ghost use Rattle.std.specs.Prelude.{◌≡◌, ◌≤◌, true};
ghost use Rattle.burst.specs.Rules.{width_bytes};
ghost use Rattle.slave.specs.Meaning.{sound_stand, told};

use crate::{making, memory};
use burst::{RawBurst, Width};
use slave::{Channel, Channels, Given, MakeFault, Response, SlaveFault, Step};

// What memory is reached by: its width, the most beats of a burst, and both channels.
#[derive(Clone, Copy)]
pub(crate) struct Port {
    pub(crate) width: Width,
    pub(crate) most: u16,
    pub(crate) channels: Channels,
    ghost some: { 1 ≤ most },
    ghost few: { most ≤ 256 },
    ghost writes: { sound_stand (width_bytes width) (told channels.write.place) ≡ true },
    ghost reads: { sound_stand (width_bytes width) (told channels.read.place) ≡ true },
}

impl Port {
    ghost use Rattle.ram.specs.Making.{make_refusal};
    ghost use Rattle.slave.specs.Making.{answered};
    ghost use Rattle.ram.specs.Shows.{shows, through};
    ghost use Rattle.slave.specs.Acts.{open_answer, open_after, give_answer, give_after, take_answer, take_after};
    ghost use Rattle.slave.specs.Meaning.{idle};
    ghost use Rattle.slave.specs.declared.response.Response.TheVariants.{Okay};
    ghost use Rattle.std.specs.Prelude.{IfOk, List, ℕ, false, is_ok};

    // An idle port to memory of this length, or the first rule that the numbers break.
    pub(crate) fn new(width: u8, most: u16, length: usize) -> Result<Port, MakeFault>
        ensures first { answered result ≡ make_refusal width most length }
        ensures shown { IfOk result (λ p. (xs : List ℕ) → through p xs ≡ shows xs width most idle Okay idle) }
    {
        let width = making::check(width, most, length)?;
        Ok(Port {
            width,
            most,
            channels: Channels::idle(),
        })
    }

    // Opens a burst on a channel.
    pub(crate) fn open(&mut self, channel: Channel, burst: RawBurst) -> Result<(), SlaveFault>
        ensures answer { (xs : List ℕ) → result ≡ open_answer (through self.old xs) channel burst }
        ensures after { (xs : List ℕ) → through self.new xs ≡ open_after (through self.old xs) channel burst }
        ensures refused { is_ok result ≡ false → self.new ≡ self.old }
    {
        if self.channels.place(channel).is_some() {
            return Err(SlaveFault::AlreadyOpen);
        }
        let burst = slave::admitted(burst, self.width, self.most, false)?;
        self.channels.step(channel, Step::Open(burst))?;
        Ok(())
    }

    // Gives the next write beat to memory.
    pub(crate) fn give(
        &mut self,
        memory: &mut [u8],
        word: u64,
        strobe: u8,
    ) -> Result<Given, SlaveFault>
        ensures answer { result ≡ give_answer (through self.old memory.old) word strobe }
        ensures after { through self.new memory.new ≡ give_after (through self.old memory.old) word strobe }
        ensures refused { is_ok result ≡ false → (self.new ≡ self.old) × (memory.new ≡ memory.old) }
    {
        let open = self.channels.write.place.ok_or(SlaveFault::NotOpen)?;
        if open.strays(self.width, strobe) {
            return Err(SlaveFault::Strobe);
        }
        let cover = open.cover().unwrap();
        let here = memory::store_word(memory, cover, self.width, word, strobe);
        self.channels.write.step(Step::Beat(here))
    }

    // Takes the next read beat from memory.
    pub(crate) fn take(&mut self, memory: &[u8]) -> Result<(u64, Response, u16), SlaveFault>
        ensures answer { result ≡ take_answer (through self.old memory.now) }
        ensures after { through self.new memory.now ≡ take_after (through self.old memory.now) }
        ensures refused { is_ok result ≡ false → self.new ≡ self.old }
    {
        let open = self.channels.read.place.ok_or(SlaveFault::NotOpen)?;
        let cover = open.cover().unwrap();
        let word = memory::load_word(memory, cover, self.width);
        let response = memory::load_worst(memory, cover, self.width);
        self.channels.read.step(Step::Beat(response))?;
        Ok((word, response, open.left()))
    }
}

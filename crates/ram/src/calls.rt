// The calls of memory as a slave.
ghost use Rattle.ram.specs.Shows.{ram_meaning};
ghost use Rattle.ram.specs.Sound.{ram_sound};

use crate::ram::Ram;
use burst::{RawBurst, Width};
use slave::{Channel, Given, Place, Response, Slave, SlaveFault};

impl Slave for Ram {
    ghost meaning = { ram_meaning };

    ghost sound = { ram_sound };

    fn live(&self) -> bool {
        true
    }

    fn width(&self) -> Width {
        self.port.width
    }

    fn most(&self) -> u16 {
        self.port.most
    }

    fn full(&self) -> bool {
        false
    }

    fn place(&self, channel: Channel) -> Place {
        self.port.channels.place(channel)
    }

    fn open(&mut self, channel: Channel, burst: RawBurst) -> Result<(), SlaveFault> {
        self.port.open(channel, burst)
    }

    fn give(&mut self, word: u64, strobe: u8) -> Result<Given, SlaveFault> {
        self.port.give(&mut self.memory, word, strobe)
    }

    fn take(&mut self) -> Result<(u64, Response, u16), SlaveFault> {
        self.port.take(&self.memory)
    }
}

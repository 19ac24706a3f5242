// What a making answers is a slave: a dead one where it was refused.
ghost use Rattle.slave.specs.Making.{made};
ghost use Rattle.slave.specs.Sound.{made_sound};
ghost use Rattle.std.specs.Prelude.{◌≡◌};

use crate::channels::{Channel, Place};
use crate::fault::SlaveFault;
use crate::given::Given;
use crate::interface::Slave;
use crate::making::MakeFault;
use crate::response::Response;
use burst::{MOST_BEATS, RawBurst, Width};

impl<T: Slave> Slave for Result<T, MakeFault> {
    ghost meaning = { made T.Slave.meaning };

    ghost sound = { made_sound T.Slave.meaning T.Slave.sound };

    fn live(&self) -> bool {
        match self {
            Ok(slave) => slave.live(),
            Err(_) => false,
        }
    }

    fn width(&self) -> Width {
        match self {
            Ok(slave) => slave.width(),
            Err(_) => Width::Eight,
        }
    }

    fn most(&self) -> u16 {
        match self {
            Ok(slave) => slave.most(),
            Err(_) => MOST_BEATS,
        }
    }

    fn full(&self) -> bool {
        match self {
            Ok(slave) => slave.full(),
            Err(_) => true,
        }
    }

    fn place(&self, channel: Channel) -> Place {
        match self {
            Ok(slave) => slave.place(channel),
            Err(_) => None,
        }
    }

    fn open(&mut self, channel: Channel, burst: RawBurst) -> Result<(), SlaveFault> {
        match self {
            Ok(slave) => slave.open(channel, burst),
            Err(_) => Err(SlaveFault::Dead),
        }
    }

    fn give(&mut self, word: u64, strobe: u8) -> Result<Given, SlaveFault> {
        match self {
            Ok(slave) => slave.give(word, strobe),
            Err(_) => Err(SlaveFault::Dead),
        }
    }

    fn take(&mut self) -> Result<(u64, Response, u16), SlaveFault> {
        match self {
            Ok(slave) => slave.take(),
            Err(_) => Err(SlaveFault::Dead),
        }
    }
}

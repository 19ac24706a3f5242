// Which memory may be made a slave, and its making.
ghost use Rattle.burst.specs.Rules.{width_bytes};
ghost use Rattle.ram.specs.Making.{make_refusal};
ghost use Rattle.slave.specs.Making.{answered};
ghost use Rattle.std.specs.Prelude.{◌≡◌, IfOk};

use crate::port::Port;
use crate::ram::Ram;
use burst::{MOST_BEATS, PAGE, Width};
use slave::MakeFault;

const MOST_MEMORY: usize = 1_048_576;

// The width of memory that may be made with these numbers, or the first rule that they break.
pub fn check(width: u8, most: u16, length: usize) -> Result<Width, MakeFault>
    ensures first { answered result ≡ make_refusal width most length }
    ensures same { IfOk result (λ w. width_bytes w ≡ width) }
{
    let bus = slave::width_of(width).ok_or(MakeFault::Measure)?;
    if most == 0 || most > MOST_BEATS {
        return Err(MakeFault::Measure);
    }
    if length == 0 || length % PAGE as usize != 0 || length > MOST_MEMORY {
        return Err(MakeFault::Length);
    }
    Ok(bus)
}

impl Ram {
    ghost use Rattle.ram.specs.Shows.{memory_of, ram_meaning, ram_made};
    ghost use Rattle.slave.specs.Making.{made};
    ghost use Rattle.std.specs.Prelude.{length};

    // Memory as a slave, or the first rule that the numbers break.
    pub fn new(memory: Vec<u8>, width: u8, most: u16) -> Result<Ram, MakeFault>
        ensures answer { answered result ≡ make_refusal width most (length memory.items) }
        ensures shown { made ram_meaning result ≡ ram_made memory.items width most }
        ensures memory { IfOk result (λ ram. memory_of ram ≡ memory) }
    {
        let port = Port::new(width, most, memory.len())?;
        Ok(Ram { memory, port })
    }
}

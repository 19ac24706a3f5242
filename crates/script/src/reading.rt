// A file from an input, and no more of it than may be a script.
ghost use Rattle.script.specs.Reads.{HopelessStay, NextByte, Reads};
ghost use Rattle.std.specs.Prelude.{IfOk, IfSome};

use crate::script::calls::{HEADER, split_header};
use std::alloc::{AllocError, Global};
use std::io;
use std::io::{ErrorKind, Read};
use std::vec::Vec;

// The next byte of an input, none at its end. A read that a signal interrupts is tried again.
fn next_byte<R: Read>(input: &mut R) -> io::Result<Option<u8>>
    ensures { IfOk result (NextByte (R.remaining input.old) (R.remaining input.new)) }
{
    let mut byte = [0u8];
    for _ in 0..u64::MAX {
        match input.read(&mut byte) {
            Ok(0) => return Ok(None),
            Ok(_) => return Ok(Some(byte[0])),
            Err(fault) if fault.kind() == ErrorKind::Interrupted => {}
            Err(fault) => return Err(fault),
        }
    }
    Err(io::Error::from(ErrorKind::TimedOut))
}

// Reads a file to its end, or until no script begins with what was read. So no input is too long, and none is waited
// for in vain. Behind the header all that a script may have is read at once.
#[tactic(auto, using(crate::proofs::Input::hopeless_stay))]
pub fn read<R: Read + Drop>(mut input: R, heap: Global) -> io::Result<Vec<u8>>
    ensures reads { IfOk result (λ file. IfSome (R.Read.remaining input) (Reads file.items)) }
    ensures law { HopelessStay }
{
    let mut file = Vec::new(heap);
    for _ in 0..HEADER {
        let Some(byte) = next_byte(&mut input)? else {
            return Ok(file);
        };
        file.push(byte)?;
    }
    let (header, _) = split_header(&file).unwrap();
    input.take(header.wanted()).read_to_end(&mut file)?;
    Ok(file)
}

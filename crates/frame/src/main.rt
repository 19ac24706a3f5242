// One audio frame over the bus: two masters write and two read, over a fabric over a register slice,
// a converter and a splitter over RAM.
// Every act has a line that says how it ended.
#![tactic(auto)]

mod lines;
mod rows;
mod steps;

use converter::Converter;
use fabric::{Answer, Fabric, Outcome};
use lines::lines;
use ram::Ram;
use register::RegisterSlice;
use rows::FRAME_BYTES;
use splitter::Splitter;
use std::io;
use std::io::{Read, Write};
use steps::frame_acts;

// One byte more than a frame: enough to see that an input is too long.
const INPUT_BYTES: u64 = FRAME_BYTES as u64 + 1;

const MEMORY_BYTES: usize = 4096;

// The width of the memory, and that of the bus that the fabric asks for.
const WIDTH: u8 = 4;

const BUS: u8 = 8;

const MOST: u16 = 8;

fn main(rt: HostRuntime) -> io::Result<()> {
    let heap = rt.alloc();
    let mut frame = Vec::new(heap);
    rt.stdin().take(INPUT_BYTES).read_to_end(&mut frame)?;
    if frame.is_empty() {
        return println!(rt; "no frame: the input is empty");
    }
    if frame.len() > FRAME_BYTES {
        return println!(rt; "no frame: the input is longer than {FRAME_BYTES} bytes");
    }
    frame.resize(FRAME_BYTES, 0)?;
    let acts = frame_acts(heap, &frame)?;
    let mut answers: Vec<Outcome> = vec![in heap; Ok(Answer::Accepted); acts.len()]?;
    let ram = Ram::new(vec![in heap; 0u8; MEMORY_BYTES]?, WIDTH, MOST);
    let mut slave = RegisterSlice::new(Converter::new(Splitter::new(ram, MOST), BUS));
    let mut fabric = Fabric::new(heap)?;
    if let Err(fault) = history::run(&mut fabric, &mut slave, &acts, &mut answers) {
        let number = fault.number();
        return println!(rt; "no run: refused {number}");
    }
    rt.stdout().write_all(&lines(heap, &answers)?)
}

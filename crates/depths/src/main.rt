// The same bursts over piles of up to eight adapters of one kind, for measuring what each adapter costs.
// A line of the input names a pile, as `slice 3`; its line of the output says how many beats came back as they were given.
#![tactic(auto)]

mod adapter;
mod beats;
mod nested;

use ram::Ram;
use std::io;

const MEMORY_BYTES: usize = 4096;

// The width of the memory, and the most beats of a burst.
const WIDTH: u8 = 8;

const MOST: u16 = 256;

fn main(rt: HostRuntime) -> io::Result<()> {
    let heap = rt.alloc();
    for line in rt.lines(heap) {
        let line = line?;
        let Some((name, depth)) = line.split_once(' ') else {
            continue;
        };
        let ram = Ram::new(vec![in heap; 0u8; MEMORY_BYTES]?, WIDTH, MOST);
        let beats = adapter::named(name).zip(depth.parse::<u8>().ok()).and_then(|(
            adapter,
            depth,
        )| nested::over_adapters(adapter, depth, ram));
        match beats {
            Some(beats) => println!(rt; "{line}: {beats} beats back")?,
            None => println!(rt; "{line}: no such pile")?,
        }
    }
    Ok(())
}

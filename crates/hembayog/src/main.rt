// The bench: a script on standard input, its report on standard output.
#![tactic(auto)]

mod program;

use std::io;
use std::io::Write;

fn main(rt: HostRuntime) -> io::Result<()> {
    match program::report(rt.stdin(), rt.alloc()) {
        Ok(report) => rt.stdout().write_all(&report),
        Err(want) => {
            let message = want.message();
            eprintln!(rt; "{message}")
        }
    }
}

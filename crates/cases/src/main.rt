// Runs the bench on every case of data/ and says how many agree, byte for byte, with the report beside them.
#![tactic(auto)]

ghost use Rattle.bench.specs.Runs.{accepted, bench_after, report_of};
ghost use Rattle.std.specs.Prelude.{◌≡◌, true, false, length, vec_len, Decides};

use bench::{MEMORY_BYTES, REPORT_BYTES};
use fabric::Fabric;
use std::fs;

// Whether two texts are the same.
fn same(a: &[u8], b: &[u8]) -> bool
    ensures { Decides result (a.now ≡ b.now) }
{
    a == b
}

// Whether the bench gives this report of a file; `out` takes the report that it gives.
fn agrees(file: &[u8], report: &[u8], memory: Vec<u8>, fabric: Fabric, out: &mut [u8]) -> bool
    ensures agrees { accepted file.now (vec_len memory) (length out.old) ≡ true → Decides result (report_of file.now ≡ report.now) }
    ensures refused { accepted file.now (vec_len memory) (length out.old) ≡ false → result ≡ false }
    ensures after { out.new ≡ bench_after file.now (vec_len memory) out.old }
{
    let Ok(count) = bench::run(file, memory, fabric, out) else {
        return false;
    };
    same(&out[..count], report)
}

fn main(rt: HostRuntime) -> anyhow::Result<()> {
    let heap = rt.alloc();
    let names = fs::read_to_string(&rt, "names")?;
    let mut out = vec![in heap; 0u8; REPORT_BYTES]?;
    let mut agree = 0u32;
    let mut differ = 0u32;
    for name in names.lines() {
        let file = fs::read(&rt, format!(in heap; "{name}.script")?)?;
        let report = fs::read(&rt, format!(in heap; "{name}.report")?)?;
        let memory = vec![in heap; 0u8; MEMORY_BYTES]?;
        let fabric = Fabric::new(heap)?;
        if agrees(&file, &report, memory, fabric, &mut out) {
            agree = agree.saturating_add(1);
        } else {
            // said at once: a later case may not be readable
            println!(rt; "differs: {name}")?;
            differ = differ.saturating_add(1);
        }
    }
    println!(rt; "{agree} agree, {differ} differ")?;
    Ok(())
}

// The bench: runs a script over the pile and writes its report.
#![tactic(auto)]

mod fault;
mod laws;
mod making;
mod records;
mod runs;
mod sink;

pub use fault::{BenchFault, CallFault};
pub use laws::whole_case_stands;
pub use making::{MEMORY_BYTES, Pile, pile};
pub use records::REPORT_BYTES;
pub use runs::run;

#[cfg(test)]
mod tests {
    use super::*;
    use fabric::Fabric;
    use std::test::Fail;

    // a read request of one beat at 0, a grant and two takes, over the image 11 22 33 44
    const FILE: &[u8] = b"\x04\0\0\0\x04\0\0\0\
        \x01\0\x05\0\x01\x02\0\0\0\0\0\0\0\0\0\0\0\0\0\0\0\0\0\0\
        \x03\0\0\0\0\0\0\0\0\0\0\0\0\0\0\0\0\0\0\0\0\0\0\0\
        \x05\0\0\0\0\0\0\0\0\0\0\0\0\0\0\0\0\0\0\0\0\0\0\0\
        \x05\0\0\0\0\0\0\0\0\0\0\0\0\0\0\0\0\0\0\0\0\0\0\0\
        \x11\x22\x33\x44";

    const REPORT: &[u8] = b"1 ACC\n2 GRT 0 05\n3 R 0 05 0000000044332211 OKAY LAST\n4 ERR F 9\n";

    const BAD_HEADER: &[u8] = b"0 ERR B 20\n";

    // Each file with its report: a buffer as long as the report or longer takes it, and a shorter one is refused and left.
    #[test]
    fn a_report_is_written_where_it_just_fits(rt: HostRuntime) -> Result<(), Fail> {
        let heap = rt.alloc();
        let torn = &FILE[..FILE.len() - 1];
        for (file, report) in [(FILE, REPORT), (torn, BAD_HEADER), (b"", BAD_HEADER)] {
            for room in 0..80 {
                let memory = vec![in heap; 0xeeu8; MEMORY_BYTES]?;
                let mut out = vec![in heap; b'?'; room]?;
                let answer = run(file, memory, Fabric::new(heap)?, &mut out);
                if room < report.len() {
                    assert_eq!(rt; answer, Err(CallFault::Short));
                    assert!(rt; out.iter().all(|byte| *byte == b'?'));
                } else {
                    assert_eq!(rt; answer, Ok(report.len()));
                    let (lines, rest) = out.split_at(report.len());
                    assert!(rt; lines == report);
                    assert!(rt; rest.iter().all(|byte| *byte == b'?'));
                }
            }
        }
        Ok(())
    }

    #[test]
    fn memory_of_another_length_is_refused_first(rt: HostRuntime) -> Result<(), Fail> {
        let heap = rt.alloc();
        for bytes in [0, 4096, MEMORY_BYTES - 1, 2 * MEMORY_BYTES] {
            let memory = vec![in heap; 0u8; bytes]?;
            let answer = run(FILE, memory, Fabric::new(heap)?, &mut []);
            assert_eq!(rt; answer, Err(CallFault::Memory));
        }
        Ok(())
    }

    // A script is read whole, and of an input that is none no more than shows it.
    #[test]
    fn an_input_is_read_as_far_as_it_may_be_a_script(rt: HostRuntime) -> Result<(), Fail> {
        let heap = rt.alloc();
        let mut long = Vec::new(heap);
        long.extend_from_slice(FILE)?;
        long.extend_from_slice(FILE)?;
        let many_acts = b"\x01\x08\0\0\0\0\0\0 and more";
        let large_image = b"\0\0\0\0\x01\x20\0\0 and more";
        let torn = &FILE[..FILE.len() - 1];
        for (input, bytes) in [
            (b"".as_slice(), 0),
            (&FILE[..7], 7),
            (torn, torn.len()),
            (FILE, FILE.len()),
            (long.as_slice(), FILE.len() + 1),
            (many_acts, 8),
            (large_image, 8),
        ] {
            let file = script::read(input, heap)?;
            assert_eq!(rt; file.len(), bytes);
            assert!(rt; input.starts_with(&file));
        }
        Ok(())
    }
}

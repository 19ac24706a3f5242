// The steps of the program, and the acts that they come to.
ghost use Rattle.std.specs.Prelude.{◌≡◌, ◌++◌, length, vec_len, IfOk, OnOk};
ghost use Rattle.std.specs.List.{flat_map};
ghost use Rattle.workload.specs.Steps.{all_acts};
ghost use Rattle.frame.specs.Rows.{WrittenOnce};
ghost use Rattle.frame.specs.Steps.{write_steps, overtaken_steps, two_reads, alone_steps, refused_steps, frame_steps};
ghost use Rattle.frame.specs.declared.rows.TheConstants.{FRAME_BYTES};

use crate::rows::{BEATS, ROWS, Row};
use fabric::Act;
use slave::Channel;
use std::alloc::{AllocError, Global};
use workload::{Step, acts_of, frame_request};

const GRANT_WRITE: Step = Step::Act(Act::Grant(Channel::Write));

const GRANT_READ: Step = Step::Act(Act::Grant(Channel::Read));

// A single put.
fn put(master: u8, word: u64, strobe: u8, last: bool) -> Step
    ensures { result ≡ Step.Act (Act.Put master word strobe last) }
{
    Step::Act(Act::Put {
        master,
        word,
        strobe,
        last,
    })
}

// A burst of the frame is requested, granted and put.
fn written(row: Row) -> [Step; 3]
    ensures { result ≡ write_steps row }
{
    [row.write_request(), GRANT_WRITE, row.puts()]
}

// A burst of the frame is requested when its age has made master 1's rank as high as a newcomer's: master 1 is granted
// first. Another master's put, a wrong last mark and a strobe outside the beat are refused before its beat.
fn overtaken(row: Row) -> [Step; 8]
    ensures { result ≡ overtaken_steps row }
{
    [
        row.write_request(),
        GRANT_WRITE,
        put(0, 0, 0, true),
        put(1, 0, 0, false),
        put(1, 0, 0xff, true),
        put(1, 0x4444_3333_0000_0000, 0x30, true),
        GRANT_WRITE,
        row.puts(),
    ]
}

// Two masters read a burst each; the higher QoS goes first.
fn read_by_two(low: Row, high: Row) -> [Step; 6]
    ensures { result ≡ two_reads low high }
{
    [
        low.read_request(2, 1, 1),
        high.read_request(3, 2, 9),
        GRANT_READ,
        Step::Takes(BEATS),
        GRANT_READ,
        Step::Takes(BEATS),
    ]
}

// Acts that are refused: no open read, nothing waits, no such master, over the page's end.
fn refused() -> [Step; 4]
    ensures { result ≡ refused_steps }
{
    [
        Step::Act(Act::Take),
        GRANT_READ,
        Step::Act(frame_request(Channel::Write, 4, 0, 0, 0, 1)),
        Step::Act(frame_request(Channel::Write, 0, 0, 0, 0xff8, 2)),
    ]
}

// Adds the steps that write these bursts one after the other.
fn add_written(steps: &mut Vec<Step>, rows: &[Row]) -> Result<(), AllocError>
    ensures { OnOk result (steps.new.items ≡ steps.old.items ++ flat_map write_steps rows.now) }
{
    for row in rows {
        steps.extend_from_slice(&written(*row))?;
    }
    Ok(())
}

// Adds the steps by which master 2 reads these bursts: all requests, then each burst.
fn add_read(steps: &mut Vec<Step>, rows: &[Row]) -> Result<(), AllocError>
    ensures { OnOk result (steps.new.items ≡ steps.old.items ++ alone_steps rows.now) }
{
    'requests: for row in rows {
        steps.push(row.read_request(2, 1, 1))?;
    }
    'reads: for row in rows {
        steps.extend_from_slice(&[GRANT_READ, Step::Takes(row.beats)])?;
    }
    Ok(())
}

// All steps: master 1 waits with the lowest rank, while master 0 brings the frame burst by burst.
fn steps(heap: Global) -> Result<Vec<Step>, AllocError>
    ensures { IfOk result (λ v. v.items ≡ frame_steps) }
{
    let [first, second, third, fourth, fifth, last] = ROWS;
    let mut steps = Vec::new(heap);
    steps.push(Step::Act(frame_request(Channel::Write, 1, 7, 0, 0x904, 1)))?;
    add_written(&mut steps, &[first, second, third, fourth])?;
    steps.extend_from_slice(&overtaken(fifth))?;
    add_written(&mut steps, &[last])?;
    steps.extend_from_slice(&read_by_two(first, second))?;
    add_read(&mut steps, &[third, fourth, fifth, last])?;
    steps.extend_from_slice(&refused())?;
    Ok(steps)
}

// The acts of a frame. A whole frame's bytes are put once each.
pub(crate) fn frame_acts(heap: Global, frame: &[u8]) -> Result<Vec<Act>, AllocError>
    ensures exact { IfOk result (λ v. v.items ≡ all_acts frame.now frame_steps) }
    ensures count { IfOk result (λ v. vec_len v ≡ 196) }
    ensures law { length frame.now ≡ FRAME_BYTES → WrittenOnce frame.now }
{
    acts_of(heap, frame, &steps(heap)?)
}

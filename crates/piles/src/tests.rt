// One list of acts over seven piles: each gives the answers that the rules of docs/ give over one flat memory.
ghost use Rattle.slave.specs.Meaning.{board};
ghost use Rattle.history.specs.Runs.{answers_of};
ghost use Rattle.piles.specs.Filled.{filled};
ghost use Rattle.ram.specs.Shows.{ram_meaning, ram_made};
ghost use Rattle.slave.specs.Making.{made};
ghost use Rattle.std.specs.Prelude.{◌≡◌, IfOk, map, vec_items};

use crate::words::{GRANT_READ, GRANT_WRITE, READER, WRITER, brought, done, granted, put};
use burst::{BurstFault, BurstKind, RawBurst};
use converter::Converter;
use fabric::{Act, Answer, Fabric, FabricFault, Outcome};
use ram::Ram;
use recorder::{Call, Recorder};
use register::RegisterSlice;
use slave::{Channel, Made, Response, Slave, SlaveFault};
use splitter::Splitter;
use std::alloc::{AllocError, Global};
use std::test::Fail;

// The answers of one list of acts over a pile.
fn answers<S: Slave + Drop>(heap: Global, mut pile: S, acts: &[Act]) -> Result<Vec<Outcome>, Fail>
    ensures { IfOk result (λ found. vec_items found ≡ answers_of (board (S.meaning pile)) acts.now) }
{
    let mut fabric = Fabric::new(heap)?;
    let mut answers: Vec<Outcome> = vec![in heap; Ok(Answer::Accepted); acts.len()]?;
    history::run(&mut fabric, &mut pile, acts, &mut answers).map_err(|_| Fail::new(
        "the pile is refused",
    ))?;
    Ok(answers)
}

// The bytes of a memory.
const MEMORY_BYTES: usize = 4096;

// Memory of so many bytes 5Ah.
#[tactic(auto, unfolding(crate::specs::Filled::filled))]
fn filled(heap: Global, bytes: usize, width: u8, most: u16) -> Result<Made<Ram>, AllocError>
    ensures { IfOk result (λ ram. made ram_meaning ram ≡ ram_made (filled bytes 0x5a) width most) }
{
    Ok(Ram::new(vec![in heap; 0x5au8; bytes]?, width, most))
}

// The memory below a pile.
fn memory(heap: Global, width: u8, most: u16) -> Result<Made<Ram>, AllocError>
    ensures { IfOk result (λ ram. made ram_meaning ram ≡ ram_made (filled 4096 0x5a) width most) }
{
    filled(heap, MEMORY_BYTES, width, most)
}

// The first of each pair: of a table its acts.
fn firsts<A: Copy, B: Copy>(heap: Global, table: &[(A, B)]) -> Result<Vec<A>, AllocError>
    ensures { IfOk result (λ firsts. vec_items firsts ≡ map (λ row. row.0) table.now) }
{
    table.iter().map(|row| row.0).collect(heap)
}

// The second of each pair: of a table the answers beside the acts.
fn seconds<A: Copy, B: Copy>(heap: Global, table: &[(A, B)]) -> Result<Vec<B>, AllocError>
    ensures { IfOk result (λ seconds. vec_items seconds ≡ map (λ row. row.1) table.now) }
{
    table.iter().map(|row| row.1).collect(heap)
}

// The answers are worked out by the rules of docs/ over one flat memory, and not by any pile.
#[test]
fn piles_agree(rt: HostRuntime) -> Result<(), Fail> {
    let heap = rt.alloc();
    let table = [
        // an unaligned INCR write, read while it is half given
        (
            WRITER.asks(1, BurstKind::Incr, 0x101, 3, 3),
            Ok(Answer::Accepted),
        ),
        (GRANT_WRITE, granted(1, 1)),
        (
            READER.asks(2, BurstKind::Incr, 0x100, 3, 4),
            Ok(Answer::Accepted),
        ),
        (GRANT_READ, granted(2, 2)),
        (put(0x1122_3344_5566_7788, 0xfe, false), Ok(Answer::More(2))),
        (
            Act::Take,
            brought(2, 0x1122_3344_5566_775a, Response::Okay, 3),
        ),
        (put(0x99aa_bbcc_ddee_ff00, 0x3c, false), Ok(Answer::More(1))),
        (
            Act::Take,
            brought(2, 0x5a5a_bbcc_ddee_5a5a, Response::Okay, 2),
        ),
        (
            Act::Take,
            brought(2, 0x5a5a_5a5a_5a5a_5a5a, Response::Okay, 1),
        ),
        (
            put(0x0102_0304_0506_0708, 0x81, true),
            done(1, Response::Okay),
        ),
        (
            Act::Take,
            brought(2, 0x5a5a_5a5a_5a5a_5a5a, Response::Okay, 0),
        ),
        // FIXED: both beats cover one byte
        (
            WRITER.asks(3, BurstKind::Fixed, 0x203, 1, 2),
            Ok(Answer::Accepted),
        ),
        (GRANT_WRITE, granted(1, 3)),
        (put(0xc3c3_c3c3_c3c3_c3c3, 0x08, false), Ok(Answer::More(1))),
        (
            put(0x3c3c_3c3c_3c3c_3c3c, 0x08, true),
            done(3, Response::Okay),
        ),
        (
            READER.asks(4, BurstKind::Fixed, 0x202, 1, 2),
            Ok(Answer::Accepted),
        ),
        (GRANT_READ, granted(2, 4)),
        (Act::Take, brought(4, 0x3c5a_0000, Response::Okay, 1)),
        (Act::Take, brought(4, 0x3c5a_0000, Response::Okay, 0)),
        // WRAP turns back at its container's end
        (
            WRITER.asks(5, BurstKind::Wrap, 0x34, 2, 4),
            Ok(Answer::Accepted),
        ),
        (GRANT_WRITE, granted(1, 5)),
        (put(0x1111_1111_0000_0000, 0xf0, false), Ok(Answer::More(3))),
        (put(0x2222_2222, 0x0f, false), Ok(Answer::More(2))),
        (put(0x3333_3333_0000_0000, 0x50, false), Ok(Answer::More(1))),
        (put(0x4444_4444, 0x00, true), done(5, Response::Okay)),
        (
            READER.asks(6, BurstKind::Wrap, 0x38, 3, 2),
            Ok(Answer::Accepted),
        ),
        (GRANT_READ, granted(2, 6)),
        (
            Act::Take,
            brought(6, 0x5a33_5a33_2222_2222, Response::Okay, 1),
        ),
        (
            Act::Take,
            brought(6, 0x1111_1111_5a5a_5a5a, Response::Okay, 0),
        ),
        // narrow beats; the third is first given with a strobe outside its lane
        (
            WRITER.asks(7, BurstKind::Incr, 0x305, 0, 4),
            Ok(Answer::Accepted),
        ),
        (GRANT_WRITE, granted(1, 7)),
        (put(0x0000_a500_0000_0000, 0x20, false), Ok(Answer::More(3))),
        (put(0x00a6_0000_0000_0000, 0x40, false), Ok(Answer::More(2))),
        (
            put(0xff, 0x01, false),
            Err(FabricFault::Slave(SlaveFault::Strobe)),
        ),
        (put(0xa700_0000_0000_0000, 0x80, false), Ok(Answer::More(1))),
        (put(0xa8, 0x01, true), done(7, Response::Okay)),
        (
            READER.asks(8, BurstKind::Incr, 0x305, 1, 2),
            Ok(Answer::Accepted),
        ),
        (GRANT_READ, granted(2, 8)),
        (Act::Take, brought(8, 0xa500_0000_0000, Response::Okay, 1)),
        (
            Act::Take,
            brought(8, 0xa7a6_0000_0000_0000, Response::Okay, 0),
        ),
        // the page's last bytes, and what lies behind the memory
        (
            WRITER.asks(9, BurstKind::Incr, 0xff8, 3, 1),
            Ok(Answer::Accepted),
        ),
        (GRANT_WRITE, granted(1, 9)),
        (
            put(0x0f1e_2d3c_4b5a_6978, 0xaa, true),
            done(9, Response::Okay),
        ),
        (
            READER.asks(10, BurstKind::Incr, 0xfff, 0, 1),
            Ok(Answer::Accepted),
        ),
        (GRANT_READ, granted(2, 10)),
        (
            Act::Take,
            brought(10, 0x0f00_0000_0000_0000, Response::Okay, 0),
        ),
        (
            WRITER.asks(11, BurstKind::Incr, 0x1000, 3, 2),
            Ok(Answer::Accepted),
        ),
        (GRANT_WRITE, granted(1, 11)),
        (put(0x77, 0x00, false), Ok(Answer::More(1))),
        (put(0x77, 0x01, true), done(11, Response::DecErr)),
        (
            READER.asks(12, BurstKind::Incr, 0x1004, 2, 1),
            Ok(Answer::Accepted),
        ),
        (GRANT_READ, granted(2, 12)),
        (Act::Take, brought(12, 0, Response::DecErr, 0)),
        // refusals
        (Act::Take, Err(FabricFault::NotOpen)),
        (
            READER.asks(13, BurstKind::Incr, 0xffc, 2, 2),
            Err(FabricFault::Unlawful(BurstFault::Page)),
        ),
    ];
    let acts = firsts(heap, &table)?;
    let expected = seconds(heap, &table)?;
    let splitter = Splitter::new(memory(heap, 8, 8)?, 8);
    assert_eq!(rt;
        answers(heap, splitter, &acts)?.as_slice(),
        expected.as_slice()
    );
    let narrow = Converter::new(memory(heap, 4, 1)?, 8);
    assert_eq!(rt;
        answers(heap, narrow, &acts)?.as_slice(),
        expected.as_slice()
    );
    let narrowest = Converter::new(memory(heap, 1, 256)?, 8);
    assert_eq!(rt;
        answers(heap, narrowest, &acts)?.as_slice(),
        expected.as_slice()
    );
    let pile = RegisterSlice::new(Converter::new(Splitter::new(memory(heap, 4, 8)?, 8), 8));
    assert_eq!(rt; answers(heap, pile, &acts)?.as_slice(), expected.as_slice());
    let split = Splitter::new(Converter::new(memory(heap, 2, 16)?, 8), 256);
    assert_eq!(rt;
        answers(heap, split, &acts)?.as_slice(),
        expected.as_slice()
    );
    let sliced = RegisterSlice::new(Splitter::new(RegisterSlice::new(memory(heap, 8, 1)?), 1));
    assert_eq!(rt;
        answers(heap, sliced, &acts)?.as_slice(),
        expected.as_slice()
    );
    let below = RegisterSlice::new(Splitter::new(memory(heap, 8, 16)?, 3));
    let converted = Converter::new(Converter::new(below, 1), 8);
    assert_eq!(rt;
        answers(heap, converted, &acts)?.as_slice(),
        expected.as_slice()
    );
    Ok(())
}

// What one beat of eight bytes at 3 sends down from a converter of width 8 over width 4.
#[test]
fn a_beat_goes_down_in_pieces(rt: HostRuntime) -> Result<(), Fail> {
    let heap = rt.alloc();
    let mut pile = Converter::new(Recorder::new(memory(heap, 4, 8)?), 8).map_err(|_| Fail::new(
        "the making is refused",
    ))?;
    let beat = RawBurst::new(BurstKind::Incr, 3, 3, 1);
    let piece = RawBurst::new(BurstKind::Incr, 3, 2, 1);
    assert!(rt; pile.open(Channel::Read, beat).is_ok());
    assert!(rt; pile.take().is_ok());
    let down = [
        Call::Open(Channel::Read, piece),
        Call::Take,
        Call::Open(Channel::Read, RawBurst { start: 4, ..piece }),
        Call::Take,
    ];
    assert!(rt; pile.below().calls() == down.as_slice());
    Ok(())
}

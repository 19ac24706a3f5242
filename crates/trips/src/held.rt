// A register slice over a recording memory: a beat is held until the next one, and goes down once.
use crate::trace::Event::{Above, Below, Refused};
use crate::trace::{self, Recorded, Recording, give, read, write};
use burst::BurstKind::Incr;
use recorder::Call::Take;
use register::RegisterSlice;
use std::test::Fail;

impl Recording for RegisterSlice<Recorded> {
    ghost recorder = { λ s. s.below };

    fn recorder(&self) -> &Recorded {
        self.below()
    }
}

#[test]
fn beats_are_held(rt: HostRuntime) -> Result<(), Fail> {
    let trace = [
        // nothing is open: what is refused passes nothing down
        Refused(give(1, 0x01)),
        Refused(Take),
        Above(write(Incr, 0x40, 3, 4)),
        Below(write(Incr, 0x40, 3, 4)),
        // a give that is not the last passes the beat before down, and no more
        Above(give(0x1111, 0x03)),
        Above(give(0x2222, 0xff)),
        Below(give(0x1111, 0x03)),
        // a refused call passes nothing down, and the held beat stays
        Refused(write(Incr, 0x80, 3, 1)),
        Refused(read(Incr, 0xffc, 3, 1)),
        Refused(Take),
        // nor does an open
        Above(read(Incr, 0x40, 3, 2)),
        Below(read(Incr, 0x40, 3, 2)),
        // a take passes the held beat down first
        Above(Take),
        Below(give(0x2222, 0xff)),
        Below(Take),
        Above(Take),
        Below(Take),
        // the last give passes both
        Above(give(0x3333, 0x00)),
        Above(give(0x4444, 0x81)),
        Below(give(0x3333, 0x00)),
        Below(give(0x4444, 0x81)),
        Refused(give(0x5555, 0x01)),
        // a burst of one beat is never held; a stray strobe passes nothing down
        Above(write(Incr, 0x105, 1, 1)),
        Below(write(Incr, 0x105, 1, 1)),
        Refused(give(0x6666, 0x40)),
        Above(give(0x6666, 0x20)),
        Below(give(0x6666, 0x20)),
        Above(write(Incr, 0x101, 2, 2)),
        Below(write(Incr, 0x101, 2, 2)),
        Above(give(0x7777, 0x0e)),
        Refused(give(0x8888, 0x0f)),
        Above(give(0x8888, 0xf0)),
        Below(give(0x7777, 0x0e)),
        Below(give(0x8888, 0xf0)),
    ];
    let recorder = trace::recorded(rt.alloc(), 8, 4)?;
    let Ok(mut slice) = RegisterSlice::new(recorder) else {
        return Err(Fail::new("the making is refused"));
    };
    assert_eq!(rt; trace::first_wrong(&mut slice, &trace), None);
    Ok(())
}

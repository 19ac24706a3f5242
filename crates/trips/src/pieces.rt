// Converters over a recording memory: what goes down is compared, call by call, with the pieces of each beat, worked out
// by hand from docs/ADAPTERS.md. A piece goes down as one INCR burst of one beat at its lowest address.
ghost use Rattle.converter.specs.Making.{converted_made};
ghost use Rattle.ram.specs.Shows.{ram_made};
ghost use Rattle.std.specs.Prelude.{◌≡◌, [], IfOk};
ghost use Rattle.trips.specs.Filled.{filled};

use crate::trace::Event::{Above, Below, Refused};
use crate::trace::{self, Recorded, Recording, give, read, write};
use burst::BurstKind::{Fixed, Incr, Wrap};
use converter::Converter;
use recorder::Call::Take;
use slave::Slave;
use std::alloc::Global;
use std::test::Fail;

impl Recording for Converter<Recorded> {
    ghost recorder = { λ c. c.below };

    fn recorder(&self) -> &Recorded {
        self.below()
    }
}

// A converter of a width over a recording memory of another, which takes single beats.
fn convert(heap: Global, width: u8, below: u8) -> Result<Converter<Recorded>, Fail>
    ensures shown { IfOk result (λ converter. ⟦<Converter<Recorded> as Slave>⟧.meaning converter
        ≡ converted_made (ram_made (filled 4096 0) below 1) width) }
    ensures unused { IfOk result (λ converter. converter.below.calls.items ≡ []) }
{
    let recorder = trace::recorded(heap, below, 1)?;
    let Ok(converter) = Converter::new(recorder, width) else {
        return Err(Fail::new("the making is refused"));
    };
    Ok(converter)
}

// An unaligned INCR burst; a piece without a strobed byte goes down too.
#[test]
fn eight_over_one(rt: HostRuntime) -> Result<(), Fail> {
    let trace = [
        Above(write(Incr, 0x5, 2, 2)),
        Above(give(0x8877_6655_4433_2211, 0xa0)),
        Below(write(Incr, 0x5, 0, 1)),
        Below(give(0x66, 0x1)),
        Below(write(Incr, 0x6, 0, 1)),
        Below(give(0x77, 0x0)),
        Below(write(Incr, 0x7, 0, 1)),
        Below(give(0x88, 0x1)),
        Above(give(0x1122_3344_5566_7788, 0xf)),
        Below(write(Incr, 0x8, 0, 1)),
        Below(give(0x88, 0x1)),
        Below(write(Incr, 0x9, 0, 1)),
        Below(give(0x77, 0x1)),
        Below(write(Incr, 0xa, 0, 1)),
        Below(give(0x66, 0x1)),
        Below(write(Incr, 0xb, 0, 1)),
        Below(give(0x55, 0x1)),
        Above(read(Incr, 0x5, 2, 2)),
        Above(Take),
        Below(read(Incr, 0x5, 0, 1)),
        Below(Take),
        Below(read(Incr, 0x6, 0, 1)),
        Below(Take),
        Below(read(Incr, 0x7, 0, 1)),
        Below(Take),
        Above(Take),
        Below(read(Incr, 0x8, 0, 1)),
        Below(Take),
        Below(read(Incr, 0x9, 0, 1)),
        Below(Take),
        Below(read(Incr, 0xa, 0, 1)),
        Below(Take),
        Below(read(Incr, 0xb, 0, 1)),
        Below(Take),
    ];
    let mut converter = convert(rt.alloc(), 8, 1)?;
    assert_eq!(rt; trace::first_wrong(&mut converter, &trace), None);
    Ok(())
}

// A FIXED burst: each of its beats is cut.
#[test]
fn eight_over_two(rt: HostRuntime) -> Result<(), Fail> {
    let trace = [
        Above(write(Fixed, 0x1, 3, 2)),
        Above(give(0x8877_6655_4433_2211, 0xfe)),
        Below(write(Incr, 0x1, 1, 1)),
        Below(give(0x2200, 0x2)),
        Below(write(Incr, 0x2, 1, 1)),
        Below(give(0x4433, 0x3)),
        Below(write(Incr, 0x4, 1, 1)),
        Below(give(0x6655, 0x3)),
        Below(write(Incr, 0x6, 1, 1)),
        Below(give(0x8877, 0x3)),
        Above(give(0x1122_3344_5566_7788, 0x48)),
        Below(write(Incr, 0x1, 1, 1)),
        Below(give(0x7700, 0x0)),
        Below(write(Incr, 0x2, 1, 1)),
        Below(give(0x5566, 0x2)),
        Below(write(Incr, 0x4, 1, 1)),
        Below(give(0x3344, 0x0)),
        Below(write(Incr, 0x6, 1, 1)),
        Below(give(0x1122, 0x1)),
        Above(read(Fixed, 0x1, 3, 2)),
        Above(Take),
        Below(read(Incr, 0x1, 1, 1)),
        Below(Take),
        Below(read(Incr, 0x2, 1, 1)),
        Below(Take),
        Below(read(Incr, 0x4, 1, 1)),
        Below(Take),
        Below(read(Incr, 0x6, 1, 1)),
        Below(Take),
        Above(Take),
        Below(read(Incr, 0x1, 1, 1)),
        Below(Take),
        Below(read(Incr, 0x2, 1, 1)),
        Below(Take),
        Below(read(Incr, 0x4, 1, 1)),
        Below(Take),
        Below(read(Incr, 0x6, 1, 1)),
        Below(Take),
    ];
    let mut converter = convert(rt.alloc(), 8, 2)?;
    assert_eq!(rt; trace::first_wrong(&mut converter, &trace), None);
    Ok(())
}

// A WRAP burst turns back, and a beat of eight bytes at 3 has five. A stray strobe sends nothing down.
#[test]
fn eight_over_four(rt: HostRuntime) -> Result<(), Fail> {
    let trace = [
        Above(write(Wrap, 0x18, 3, 2)),
        Above(give(0x8877_6655_4433_2211, 0xff)),
        Below(write(Incr, 0x18, 2, 1)),
        Below(give(0x4433_2211, 0xf)),
        Below(write(Incr, 0x1c, 2, 1)),
        Below(give(0x8877_6655, 0xf)),
        Above(give(0x1122_3344_5566_7788, 0x81)),
        Below(write(Incr, 0x10, 2, 1)),
        Below(give(0x5566_7788, 0x1)),
        Below(write(Incr, 0x14, 2, 1)),
        Below(give(0x1122_3344, 0x8)),
        Above(read(Wrap, 0x18, 3, 2)),
        Above(Take),
        Below(read(Incr, 0x18, 2, 1)),
        Below(Take),
        Below(read(Incr, 0x1c, 2, 1)),
        Below(Take),
        Above(Take),
        Below(read(Incr, 0x10, 2, 1)),
        Below(Take),
        Below(read(Incr, 0x14, 2, 1)),
        Below(Take),
        Above(read(Incr, 0x3, 3, 1)),
        Above(Take),
        Below(read(Incr, 0x3, 2, 1)),
        Below(Take),
        Below(read(Incr, 0x4, 2, 1)),
        Below(Take),
        Above(write(Incr, 0x3, 3, 1)),
        Refused(give(0x8877_6655_4433_2211, 0x4)),
        Above(give(0x8877_6655_4433_2211, 0xf8)),
        Below(write(Incr, 0x3, 2, 1)),
        Below(give(0x4400_0000, 0x8)),
        Below(write(Incr, 0x4, 2, 1)),
        Below(give(0x8877_6655, 0xf)),
    ];
    let mut converter = convert(rt.alloc(), 8, 4)?;
    assert_eq!(rt; trace::first_wrong(&mut converter, &trace), None);
    Ok(())
}

// Beats of two bytes on a bus of eight: each goes down whole, in its own lanes there.
#[test]
fn two_over_eight(rt: HostRuntime) -> Result<(), Fail> {
    let trace = [
        Above(write(Incr, 0x5, 1, 3)),
        Above(give(0x2211, 0x2)),
        Below(write(Incr, 0x5, 1, 1)),
        Below(give(0x2200_0000_0000, 0x20)),
        Above(give(0x4433, 0x3)),
        Below(write(Incr, 0x6, 1, 1)),
        Below(give(0x4433_0000_0000_0000, 0xc0)),
        Above(give(0x6655, 0x1)),
        Below(write(Incr, 0x8, 1, 1)),
        Below(give(0x6655, 0x1)),
        Above(read(Wrap, 0x6, 1, 2)),
        Above(Take),
        Below(read(Incr, 0x6, 1, 1)),
        Below(Take),
        Above(Take),
        Below(read(Incr, 0x4, 1, 1)),
        Below(Take),
        Above(read(Fixed, 0x3, 1, 2)),
        Above(Take),
        Below(read(Incr, 0x3, 1, 1)),
        Below(Take),
        Above(Take),
        Below(read(Incr, 0x3, 1, 1)),
        Below(Take),
        Above(write(Wrap, 0x6, 1, 2)),
        Above(give(0x2211, 0x3)),
        Below(write(Incr, 0x6, 1, 1)),
        Below(give(0x2211_0000_0000_0000, 0xc0)),
        Above(give(0x4433, 0x0)),
        Below(write(Incr, 0x4, 1, 1)),
        Below(give(0x4433_0000_0000, 0x0)),
    ];
    let mut converter = convert(rt.alloc(), 2, 8)?;
    assert_eq!(rt; trace::first_wrong(&mut converter, &trace), None);
    Ok(())
}

// Equal widths: each beat goes down as one piece, and its unused lanes as 0.
#[test]
fn four_over_four(rt: HostRuntime) -> Result<(), Fail> {
    let trace = [
        Above(write(Incr, 0x2, 2, 2)),
        Above(give(0x4433_2211, 0xc)),
        Below(write(Incr, 0x2, 2, 1)),
        Below(give(0x4433_0000, 0xc)),
        Above(give(0x8877_6655, 0xf)),
        Below(write(Incr, 0x4, 2, 1)),
        Below(give(0x8877_6655, 0xf)),
        Above(read(Wrap, 0x4, 1, 2)),
        Above(Take),
        Below(read(Incr, 0x4, 1, 1)),
        Below(Take),
        Above(Take),
        Below(read(Incr, 0x6, 1, 1)),
        Below(Take),
    ];
    let mut converter = convert(rt.alloc(), 4, 4)?;
    assert_eq!(rt; trace::first_wrong(&mut converter, &trace), None);
    Ok(())
}

// Splitters over a recording memory: what goes down is compared with the runs.
ghost use Rattle.burst.specs.Beats.{raw_of};
ghost use Rattle.ram.specs.Shows.{ram_made};
ghost use Rattle.splitter.specs.Making.{make_answer, made_as};
ghost use Rattle.std.specs.Prelude.{◌≡◌, [], ◌++◌, IfOk, OnOk, option_to_list, vec_items};
ghost use Rattle.trips.specs.Filled.{filled};
ghost use Rattle.trips.specs.Traces.{beat_call, run_opened, split_trace};

use crate::trace::Event::{Above, Below, Refused};
use crate::trace::{self, Event, Recorded, Recording, give, read, write};
use burst::{Burst, BurstKind, RawBurst, Width};
use ram::Ram;
use recorder::Call;
use recorder::Call::Take;
use slave::{Channel, MakeFault, Slave};
use splitter::Splitter;
use std::alloc::{AllocError, Global};
use std::test::Fail;

impl Recording for Splitter<Recorded> {
    ghost recorder = { λ s. s.below };

    fn recorder(&self) -> &Recorded {
        self.below()
    }
}

// A splitter in runs of at most this number over a recording memory of 8 bytes' width that takes no more at once.
fn split(heap: Global, number: u16) -> Result<Splitter<Recorded>, Fail>
    ensures shown { let memory = ram_made (filled 4096 0) 8 number
        in IfOk result (λ splitter. ⟦<Splitter<Recorded> as Slave>⟧.meaning splitter
        ≡ made_as (make_answer number memory) memory) }
    ensures unused { IfOk result (λ splitter. splitter.below.calls.items ≡ []) }
{
    let recorder = trace::recorded(heap, 8, number)?;
    let Ok(splitter) = Splitter::new(recorder, number) else {
        return Err(Fail::new("the making is refused"));
    };
    Ok(splitter)
}

// The call that moves a beat of a burst: a write gives every beat another word.
fn beat_call(burst: Burst, channel: Channel, beat: u16) -> Call
    ensures { result ≡ beat_call channel (raw_of burst) beat }
{
    match channel {
        Channel::Write => give(
            u64::from(beat) * 0x0001_0001_0001,
            burst.lanes(beat, Width::Eight).unwrap_or(0),
        ),
        Channel::Read => Call::Take,
    }
}

// The event that opens a run below, if one begins with this beat.
fn opened_run(burst: Burst, channel: Channel, number: u16, beat: u16) -> Option<Event>
    ensures { result ≡ run_opened number channel (raw_of burst) beat }
{
    let (run, first) = splitter::run_at(burst, number, beat)?;
    (first == 0).then_some(Event::Below(Call::Open(channel, run)))
}

// Adds an event to a trace, if there is one.
fn push_some(trace: &mut Vec<Event>, event: Option<Event>) -> Result<(), AllocError>
    ensures { OnOk result (vec_items trace.new ≡ vec_items trace.old ++ option_to_list event) }
{
    if let Some(event) = event {
        trace.push(event)?;
    }
    Ok(())
}

// What a burst of which nothing is refused makes of a splitter: each beat goes down once, and each run is opened when its
// first beat comes next.
#[tactic(auto, using(crate::proofs::Beats::beats_none, crate::proofs::Beats::beats_more))]
fn split_trace(
    heap: Global,
    burst: Burst,
    channel: Channel,
    number: u16,
) -> Result<Vec<Event>, AllocError>
    ensures { IfOk result (λ trace. vec_items trace ≡ split_trace number channel (raw_of burst)) }
{
    let mut trace = Vec::new(heap);
    trace.push(Event::Above(Call::Open(channel, burst.raw())))?;
    for beat in 0..burst.count {
        push_some(&mut trace, opened_run(burst, channel, number, beat))?;
        let call = beat_call(burst, channel, beat);
        trace.push(Event::Above(call))?;
        trace.push(Event::Below(call))?;
    }
    Ok(trace)
}

// Bursts of every kind, over splitters in runs of several numbers and on both channels.
#[test]
fn bursts_go_in_runs(rt: HostRuntime) -> Result<(), Fail> {
    let bursts = [
        // FIXED beats go alone
        RawBurst::new(BurstKind::Fixed, 3, 1, 2),
        RawBurst::new(BurstKind::Fixed, 8, 3, 16),
        // INCR bursts go in runs
        RawBurst::new(BurstKind::Incr, 0x40, 2, 16),
        RawBurst::new(BurstKind::Incr, 1, 2, 7),
        RawBurst::new(BurstKind::Incr, 0xf00, 0, 256),
        RawBurst::new(BurstKind::Incr, 0xffc, 2, 1),
        // WRAP bursts turn
        RawBurst::new(BurstKind::Wrap, 0x34, 2, 4),
        RawBurst::new(BurstKind::Wrap, 0x0c, 2, 8),
        RawBurst::new(BurstKind::Wrap, 0x80, 3, 16),
    ];
    for raw in bursts {
        let burst = burst::check(raw, Width::Eight).map_err(|_| Fail::new("not lawful"))?;
        for number in [1, 3, 4, 16, 256] {
            for channel in [Channel::Write, Channel::Read] {
                let trace = split_trace(rt.alloc(), burst, channel, number)?;
                let mut splitter = split(rt.alloc(), number)?;
                assert_eq!(rt; trace::first_wrong(&mut splitter, &trace), None);
            }
        }
    }
    Ok(())
}

// The calls themselves, told one by one.
#[test]
fn what_goes_down(rt: HostRuntime) -> Result<(), Fail> {
    let trace = [
        Above(write(BurstKind::Wrap, 0x0c, 2, 8)),
        Below(write(BurstKind::Incr, 0x0c, 2, 4)),
        Above(give(0, 0)),
        Below(give(0, 0)),
        Above(give(0x11, 0x01)),
        Below(give(0x11, 0x01)),
        Above(give(0x22, 0)),
        Below(give(0x22, 0)),
        Refused(give(0x33, 0x80)),
        Above(give(0x33, 0x04)),
        Below(give(0x33, 0x04)),
        Below(write(BurstKind::Incr, 0x1c, 2, 1)),
        Above(give(0x44, 0xf0)),
        Below(give(0x44, 0xf0)),
        Below(write(BurstKind::Incr, 0, 2, 3)),
        Above(give(0x55, 0)),
        Below(give(0x55, 0)),
        Above(give(0x66, 0)),
        Below(give(0x66, 0)),
        Above(give(0x77, 0)),
        Below(give(0x77, 0)),
        Above(read(BurstKind::Incr, 1, 2, 6)),
        Below(read(BurstKind::Incr, 1, 2, 4)),
        Above(Take),
        Below(Take),
        Above(Take),
        Below(Take),
        Above(Take),
        Below(Take),
        Above(Take),
        Below(Take),
        Below(read(BurstKind::Incr, 0x10, 2, 2)),
        Above(Take),
        Below(Take),
        Above(Take),
        Below(Take),
        Refused(Take),
        Above(write(BurstKind::Fixed, 3, 1, 2)),
        Below(write(BurstKind::Incr, 3, 1, 1)),
        Above(give(0, 0)),
        Below(give(0, 0)),
        Below(write(BurstKind::Incr, 3, 1, 1)),
        Above(give(0, 0)),
        Below(give(0, 0)),
    ];
    let mut splitter = split(rt.alloc(), 4)?;
    assert_eq!(rt; trace::first_wrong(&mut splitter, &trace), None);
    Ok(())
}

// A run is opened only when its first beat is due.
#[test]
fn follows_its_record(rt: HostRuntime) -> Result<(), Fail> {
    let mut splitter = split(rt.alloc(), 2)?;
    assert!(rt;
        splitter
            .open(Channel::Read, RawBurst::new(BurstKind::Incr, 0, 2, 3))
            .is_ok()
    );
    assert_eq!(rt; splitter.below().count(), 1);
    assert!(rt; splitter.take().is_ok());
    assert_eq!(rt; splitter.below().count(), 2);
    assert!(rt; splitter.take().is_ok());
    assert_eq!(rt; splitter.below().count(), 4);
    assert!(rt; splitter.take().is_ok());
    assert_eq!(rt; splitter.below().count(), 5);
    Ok(())
}

#[test]
fn making(rt: HostRuntime) -> Result<(), Fail> {
    let memory = vec![in rt.alloc(); 0u8; 4096]?;
    let mut ram = Ram::new(memory, 4, 8);
    assert!(rt; splitter::check(&ram, 8).is_ok());
    assert_eq!(rt;
        splitter::check(&ram, 0).map_err(MakeFault::number),
        Err(16)
    );
    assert_eq!(rt;
        splitter::check(&ram, 9).map_err(MakeFault::number),
        Err(16)
    );
    assert!(rt;
        ram.open(Channel::Read, RawBurst::new(BurstKind::Incr, 0, 2, 1))
            .is_ok()
    );
    assert_eq!(rt;
        splitter::check(&ram, 9).map_err(MakeFault::number),
        Err(18)
    );
    assert!(rt; !Splitter::new(ram, 8).live());
    Ok(())
}

// Traces: what is called on an adapter, and what goes down by it.
ghost use Rattle.burst.specs.Rules.{kind_code};
ghost use Rattle.ram.specs.Shows.{ram_meaning, ram_made};
ghost use Rattle.ram.specs.declared.ram.Ram.{Ram};
ghost use Rattle.recorder.specs.declared.record.Recorder.{Recorder};
ghost use Rattle.slave.specs.declared.making.MakeFault.{MakeFault};
ghost use Rattle.slave.specs.Making.{made};
ghost use Rattle.std.specs.Prelude.{◌≡◌, ◌↔◌, [], IsTrue, IfNone, IfOk, Result};
ghost use Rattle.trips.specs.Filled.{filled};
ghost use Rattle.trips.specs.Traces.{is_taken, after_call, after_event, after_trace, IsNext};

use burst::{BurstKind, RawBurst};
use ram::Ram;
use recorder::{Call, Recorder};
use slave::{Channel, Made, Slave};
use std::alloc::{AllocError, Global};

// What happens next.
#[derive(Clone, Copy)]
pub(crate) enum Event {
    // a call on the adapter, which is taken
    Above(Call),
    // a call on the adapter, which is refused
    Refused(Call),
    // a call that goes down
    Below(Call),
}

// The call that opens a burst to be written.
pub(crate) fn write(kind: BurstKind, start: u32, size: u8, count: u16) -> Call
    ensures { result ≡ Call.Open Channel.Write
        (record { kind = kind_code kind; start = start; size = size; count = count }) }
{
    Call::Open(Channel::Write, RawBurst::new(kind, start, size, count))
}

// The call that opens a burst to be read.
pub(crate) fn read(kind: BurstKind, start: u32, size: u8, count: u16) -> Call
    ensures { result ≡ Call.Open Channel.Read
        (record { kind = kind_code kind; start = start; size = size; count = count }) }
{
    Call::Open(Channel::Read, RawBurst::new(kind, start, size, count))
}

// The call that gives a beat.
pub(crate) fn give(word: u64, strobe: u8) -> Call
    ensures { result ≡ Call.Give word strobe }
{
    Call::Give { word, strobe }
}

// A memory with a record of what it takes.
pub(crate) type Recorded = Recorder<Made<Ram>>;

// A memory of so many bytes 0.
#[tactic(auto, unfolding(crate::specs::Filled::filled))]
fn filled(heap: Global, bytes: usize, width: u8, most: u16) -> Result<Made<Ram>, AllocError>
    ensures { IfOk result (λ ram. made ram_meaning ram ≡ ram_made (filled bytes 0) width most) }
{
    Ok(Ram::new(vec![in heap; 0u8; bytes]?, width, most))
}

// A memory of a page of bytes 0, with nothing recorded yet.
pub(crate) fn recorded(heap: Global, width: u8, most: u16) -> Result<Recorded, AllocError>
    ensures shown { IfOk result (λ recorder. ⟦<Recorded as Slave>⟧.meaning recorder
        ≡ ram_made (filled 4096 0) width most) }
    ensures unused { IfOk result (λ recorder. recorder.calls.items ≡ []) }
{
    Ok(Recorder::new(filled(heap, 4096, width, most)?))
}

// An adapter over a memory with a record.
pub(crate) trait Recording: Slave {
    ghost recorder: { Self → Recorder (Result Ram MakeFault) };

    fn recorder(&self) -> &Recorded
        ensures { result.now ≡ recorder self.now };
}

// Makes a call; whether it is taken.
fn makes<S: Slave>(slave: &mut S, call: Call) -> bool
    ensures taken { result ≡ is_taken (S.meaning slave.old) call }
    ensures after { S.meaning slave.new ≡ after_call (S.meaning slave.old) call }
{
    match call {
        Call::Open(channel, burst) => slave.open(channel, burst).is_ok(),
        Call::Give { word, strobe } => slave.give(word, strobe).is_ok(),
        Call::Take => slave.take().is_ok(),
    }
}

// Lets an event happen, where the first `seen` calls below are told already; whether it is the one that comes next.
fn happens<A: Recording>(adapter: &mut A, event: Event, seen: usize) -> bool
    ensures right { IsTrue result
        ↔ IsNext (A.recorder adapter.old) (A.Slave.meaning adapter.old) seen event }
    ensures after { IsTrue result
        → A.Slave.meaning adapter.new ≡ after_event (A.Slave.meaning adapter.old) event }
{
    match event {
        Event::Above(call) => adapter.recorder().count() == seen && makes(adapter, call),
        Event::Refused(call) => adapter.recorder().count() == seen && !makes(adapter, call),
        Event::Below(call) => adapter.recorder().get(seen) == Some(call),
    }
}

// Lets a trace happen on an adapter; the first event that is not the one that comes next, if any. Nothing goes down that
// the trace does not tell: before each call above, and at the end, all calls below are told.
pub(crate) fn first_wrong<A: Recording>(adapter: &mut A, trace: &[Event]) -> Option<usize>
    ensures { IfNone result
        (A.Slave.meaning adapter.new ≡ after_trace (A.Slave.meaning adapter.old) trace.now) }
{
    let mut seen = adapter.recorder().count();
    for (i, event) in trace.iter().enumerate() {
        if !happens(adapter, *event, seen) {
            return Some(i);
        }
        if let Event::Below(_) = event {
            seen = seen.saturating_add(1);
        }
    }
    (adapter.recorder().count() != seen).then_some(trace.len())
}

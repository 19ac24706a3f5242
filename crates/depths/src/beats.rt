// Bursts that are written over a slave and read back.
ghost use Rattle.depths.specs.Beats.{burst_of, word_of, written, taken, asked, brings, count_back, beats_back};
ghost use Rattle.slave.specs.Acts.{take_answer, take_after};
ghost use Rattle.std.specs.Prelude.{◌≡◌, ◌≤◌};

use burst::{BurstKind, RawBurst};
use slave::{Channel, Slave};

// The bursts that are moved.
const BURSTS: u32 = 8;

// The beats of each.
const BEATS: u16 = 16;

// The size code of its beats.
const SIZE: u8 = 3;

// Every lane of the bus.
const ALL_LANES: u8 = 0xff;

// The burst at a start.
fn burst_of(start: u32) -> RawBurst
    ensures { result ≡ burst_of start }
{
    RawBurst::new(BurstKind::Incr, start, SIZE, BEATS)
}

// The word of a beat of it.
fn word_of(start: u32, beat: u16) -> u64
    ensures { result ≡ word_of start beat }
{
    (u64::from(start) + u64::from(beat) + 1).wrapping_mul(0x0123_4567_89ab_cdef)
}

// Writes a burst.
#[tactic(auto, using(crate::proofs::Steps::given_none, crate::proofs::Steps::given_more))]
fn write<S: Slave>(slave: &mut S, start: u32)
    ensures { S.meaning slave.new ≡ written (S.meaning slave.old) start }
{
    let _ = slave.open(Channel::Write, burst_of(start));
    for beat in 0..BEATS {
        let _ = slave.give(word_of(start, beat), ALL_LANES);
    }
}

// Takes a beat; whether it brings this word.
fn takes<S: Slave>(slave: &mut S, word: u64) -> bool
    ensures answer { result ≡ brings (take_answer (S.meaning slave.old)) word }
    ensures after { S.meaning slave.new ≡ take_after (S.meaning slave.old) }
{
    match slave.take() {
        Ok((taken, _, _)) => taken == word,
        Err(_) => false,
    }
}

// Reads a burst; how many of its beats bring the words that were written.
#[tactic(auto, using(crate::proofs::Steps::taken_none, crate::proofs::Steps::taken_more, crate::proofs::Steps::count_none, crate::proofs::Steps::count_more))]
fn read<S: Slave>(slave: &mut S, start: u32) -> u16
    ensures count { result ≡ count_back (asked (S.meaning slave.old) start) start 16 }
    ensures after { S.meaning slave.new ≡ taken (asked (S.meaning slave.old) start) 16 }
    ensures few { result ≤ 16 }
{
    let _ = slave.open(Channel::Read, burst_of(start));
    let mut count = 0;
    for beat in 0..BEATS {
        count += u16::from(takes(slave, word_of(start, beat)));
    }
    count
}

// Writes the bursts over a slave and reads each back; how many beats come back as they were given.
#[tactic(auto, using(crate::proofs::Steps::moved_none, crate::proofs::Steps::moved_more, crate::proofs::Steps::back_none, crate::proofs::Steps::back_more))]
pub(crate) fn beats_back<S: Slave + Drop>(mut slave: S) -> u16
    ensures { result ≡ beats_back (S.meaning slave) 8 }
{
    let mut count = 0;
    for burst in 0..BURSTS {
        let start = 128 * burst;
        write(&mut slave, start);
        count += read(&mut slave, start);
    }
    count
}

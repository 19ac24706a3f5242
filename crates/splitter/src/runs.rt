// The runs of a burst.
ghost use Rattle.std.specs.Prelude.{◌≡◌, ◌<◌, ◌≤◌, OnSome};
ghost use Rattle.burst.specs.Beats.{raw_of};
ghost use Rattle.splitter.specs.Runs.{turn, part_first, part_end, run_answer};
ghost use Rattle.splitter.specs.Laws.{RunsStand, WorkedSplit};

use burst::{Burst, BurstKind, RawBurst};
use std::ops::Range;

// The beats of a WRAP burst before it turns back to its container's start.
#[tactic(auto, using(burst::proofs::Facts::facts))]
fn turn_of(burst: Burst) -> u16
    ensures { result ≡ turn (raw_of burst) }
{
    burst.count - ((burst.start >> burst.size) % u32::from(burst.count)) as u16
}

// The beats of the part of the burst that beat j lies in.
#[tactic(auto, unfolding(crate::specs::Runs::part_first, crate::specs::Runs::part_end))]
fn part(burst: Burst, j: u16) -> Range<u16>
    requires { j < burst.count }
    ensures first { result.start ≡ part_first (raw_of burst) j }
    ensures end { result.end ≡ part_end (raw_of burst) j }
    ensures low { result.start ≤ j }
    ensures high { j < result.end }
{
    match burst.kind {
        BurstKind::Fixed => j..j + 1,
        BurstKind::Incr => 0..burst.count,
        BurstKind::Wrap => {
            let turn = turn_of(burst);
            if j < turn { 0..turn } else { turn..burst.count }
        }
    }
}

// The run that beat j goes down in, in runs of at most so many beats, and which beat of it;
// none from the count on, and none in runs of no beats.
pub fn run_at(burst: Burst, number: u16, j: u16) -> Option<(RawBurst, u16)>
    ensures answer { result ≡ run_answer number (raw_of burst) j }
    ensures law { OnSome result (RunsStand number (raw_of burst)) }
    ensures worked { OnSome result (WorkedSplit) }
{
    if j >= burst.count {
        return None;
    }
    let part = part(burst, j);
    let beat = (j - part.start).checked_rem(number)?;
    let first = j - beat;
    let start = burst.address(first)?;
    let count = number.min(part.end - first);
    Some((
        RawBurst::new(BurstKind::Incr, start, burst.size, count),
        beat,
    ))
}

// The steps of a workload, and the acts that they come to.
ghost use Rattle.std.specs.Prelude.{◌≡◌, ℕ, ◌++◌, OnOk, OnErr, IfOk, take, drop, length};
ghost use Rattle.workload.specs.Moves.{put_of, puts_of, takes_of};
ghost use Rattle.workload.specs.Law.{CarriesFrame};
ghost use Rattle.workload.specs.Steps.{step_acts, all_acts};

use crate::carry::Frame;
use fabric::Act;
use std::alloc::{AllocError, Global};
use std::iter::repeat_n;

// The puts of a burst that carries the frame at `start` from a block of eight bytes on.
#[derive(Clone, Copy)]
pub struct Puts {
    pub master: u8,
    pub start: u32,
    pub block: u16,
    pub beats: u16,
}

impl Puts {
    // The put of beat j.
    fn beat(self, frame: &[u8], j: u16) -> Act
        ensures { result ≡ put_of frame.now self j }
    {
        let frame = Frame {
            bytes: frame,
            start: self.start,
        };
        let (word, strobe) = frame.carried((u32::from(self.block) + u32::from(j)) * 8);
        Act::Put {
            master: self.master,
            word,
            strobe,
            last: u32::from(j) + 1 == u32::from(self.beats),
        }
    }

    // Adds the puts of all beats.
    pub fn add_to(self, acts: &mut Vec<Act>, frame: &[u8]) -> Result<(), AllocError>
        ensures added { OnOk result (acts.new.items ≡ acts.old.items ++ puts_of frame.now self) }
        ensures no_memory { OnErr result ((k : ℕ) × (acts.new.items ≡ acts.old.items ++ take k (puts_of frame.now self))) }
        ensures law { OnOk result (CarriesFrame frame.now self (drop (length acts.old.items) acts.new.items)) }
    {
        acts.extend((0..self.beats).map(|j| self.beat(frame, j)))
    }
}

// Adds so many takes.
pub fn add_takes(acts: &mut Vec<Act>, beats: u16) -> Result<(), AllocError>
    ensures added { OnOk result (acts.new.items ≡ acts.old.items ++ takes_of beats) }
    ensures no_memory { OnErr result ((k : ℕ) × (acts.new.items ≡ acts.old.items ++ take k (takes_of beats))) }
{
    acts.extend(repeat_n(Act::Take, usize::from(beats)))
}

// A step is data, which a program writes down in a list, and no switch.
#[derive(Clone, Copy)]
pub enum Step {
    // one act
    Act(Act),
    // the puts of a burst
    Puts(Puts),
    // so many takes
    Takes(u16),
}

impl Step {
    // Adds the acts of the step.
    pub fn add_to(self, acts: &mut Vec<Act>, frame: &[u8]) -> Result<(), AllocError>
        ensures added { OnOk result (acts.new.items ≡ acts.old.items ++ step_acts frame.now self) }
        ensures no_memory { OnErr result ((k : ℕ) × (acts.new.items ≡ acts.old.items ++ take k (step_acts frame.now self))) }
    {
        match self {
            Step::Act(act) => acts.push(act)?,
            Step::Puts(puts) => puts.add_to(acts, frame)?,
            Step::Takes(beats) => add_takes(acts, beats)?,
        }
        Ok(())
    }
}

// The acts of all steps, in order.
pub fn acts_of(heap: Global, frame: &[u8], steps: &[Step]) -> Result<Vec<Act>, AllocError>
    ensures { IfOk result (λ v. v.items ≡ all_acts frame.now steps.now) }
{
    let mut acts = Vec::new(heap);
    for step in steps {
        step.add_to(&mut acts, frame)?;
    }
    Ok(acts)
}

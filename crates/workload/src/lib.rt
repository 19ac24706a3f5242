// Acts that move a frame over a fabric, in beats of eight bytes.
#![tactic(auto)]

mod acts;
mod carry;
mod step;

pub use acts::frame_request;
pub use carry::Frame;
pub use step::{Puts, Step, acts_of, add_takes};

#[cfg(test)]
mod tests {
    use super::*;
    use fabric::Act;
    use std::test::Fail;

    // The puts of a frame of two bytes at an odd address, alone and as a step, behind two takes.
    #[test]
    fn steps_come_to_acts(rt: HostRuntime) -> Result<(), Fail> {
        let frame = [0x11, 0x22];
        let puts = Puts {
            master: 1,
            start: 0x101,
            block: 0x20,
            beats: 1,
        };
        let mut acts = Vec::new(rt.alloc());
        add_takes(&mut acts, 2)?;
        puts.add_to(&mut acts, &frame)?;
        Step::Puts(puts).add_to(&mut acts, &frame)?;
        assert_eq!(rt; acts.len(), 4);
        assert!(rt; matches!(acts[1], Act::Take));
        for put in &acts[2..] {
            assert!(rt;
                matches!(
                    put,
                    Act::Put {
                        master: 1,
                        word: 0x22_1100,
                        strobe: 0x06,
                        last: true,
                    }
                )
            );
        }
        Ok(())
    }
}

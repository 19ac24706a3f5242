// Bursts: what a master asks for, which of them are lawful, and which bytes their beats cover.
#![tactic(auto)]

mod burst;
mod cover;
mod lanes;
mod laws;
mod raw;
mod rules;
mod width;

pub use burst::Burst;
pub use cover::Cover;
pub use lanes::{LANES, any_lane, mask_of, strobed};
pub use laws::edges_stand;
pub use raw::{BurstFault, BurstKind, RawBurst};
pub use rules::{MOST_BEATS, PAGE, check};
pub use width::Width;

#[cfg(test)]
mod tests {
    use super::*;
    use std::test::Fail;

    fn asked(kind: u8, start: u32, size: u8, count: u16) -> RawBurst {
        RawBurst {
            kind,
            start,
            size,
            count,
        }
    }

    fn refusal(raw: RawBurst, width: Width) -> u8 {
        check(raw, width).map_or_else(|fault| fault.number(), |_| 0)
    }

    fn cover(raw: RawBurst, j: u16) -> Option<Cover> {
        check(raw, Width::Eight).ok()?.cover(j)
    }

    #[test]
    fn refusals(rt: HostRuntime) {
        let table = [
            (asked(3, 0, 0, 1), Width::Eight, 1),
            (asked(1, 0, 4, 1), Width::Eight, 2),
            (asked(1, 0, 255, 1), Width::Eight, 2),
            (asked(1, 0, 2, 1), Width::Two, 2),
            (asked(1, 0, 0, 0), Width::One, 3),
            (asked(1, 0, 0, 257), Width::One, 3),
            (asked(2, 0, 0, 3), Width::One, 3),
            (asked(0, 0xffd, 2, 1), Width::Four, 5),
            (asked(1, 0xffff_fffc, 2, 1), Width::Four, 0),
            (asked(1, 0xffff_fffc, 2, 2), Width::Four, 5),
        ];
        for (raw, width, number) in table {
            assert_eq!(rt; refusal(raw, width), number);
        }
    }

    #[test]
    fn covers(rt: HostRuntime) {
        assert_eq!(rt;
            cover(asked(1, 1, 2, 3), 1),
            Some(Cover { first: 4, last: 7 })
        );
        assert_eq!(rt; cover(asked(1, 1, 2, 3), 3), None);
        assert_eq!(rt;
            cover(asked(2, 0xffff_fff8, 2, 4), 2),
            Some(Cover {
                first: 0xffff_fff0,
                last: 0xffff_fff3
            })
        );
        assert_eq!(rt;
            cover(asked(0, 3, 1, 2), 1),
            Some(Cover { first: 3, last: 3 })
        );
    }

    #[test]
    fn lanes_and_spans(rt: HostRuntime) -> Result<(), Fail> {
        let Ok(b) = check(asked(1, 1, 2, 3), Width::Eight) else {
            return Err(Fail::new("refused"));
        };
        assert_eq!(rt; b.lanes(0, Width::Four), Some(0x0e));
        assert_eq!(rt; b.lanes(1, Width::Eight), Some(0xf0));
        assert_eq!(rt; b.lanes(1, Width::Two), Some(0x03));
        assert_eq!(rt; b.span(), Cover { first: 1, last: 11 });
        Ok(())
    }
}

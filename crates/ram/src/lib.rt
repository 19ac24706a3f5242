// Memory as a slave.
#![tactic(auto)]

mod calls;
mod making;
mod memory;
mod port;
mod ram;

pub use making::check;
pub use ram::Ram;

#[cfg(test)]
mod tests {
    use super::*;
    use burst::{BurstKind, RawBurst};
    use slave::{Channel, Given, Response, Slave, SlaveFault};
    use std::test::Fail;

    fn incr(start: u32, size: u8, count: u16) -> RawBurst {
        RawBurst::new(BurstKind::Incr, start, size, count)
    }

    #[test]
    fn a_strobe_picks_its_lanes(rt: HostRuntime) -> Result<(), Fail> {
        let mut ram = Ram::new(vec![in rt.alloc(); 0x55u8; 4096]?, 4, 8);
        assert_eq!(rt; ram.open(Channel::Write, incr(1, 2, 1)), Ok(()));
        assert_eq!(rt; ram.give(0x4433_2211, 0x0d), Err(SlaveFault::Strobe));
        assert_eq!(rt;
            ram.give(0x4433_2211, 0x0c),
            Ok(Given::Done(Response::Okay))
        );
        assert_eq!(rt; ram.give(0, 0), Err(SlaveFault::NotOpen));
        assert_eq!(rt; ram.open(Channel::Read, incr(1, 2, 1)), Ok(()));
        assert_eq!(rt; ram.take(), Ok((0x4433_5500, Response::Okay, 0)));
        Ok(())
    }

    #[test]
    fn refusals_in_order(rt: HostRuntime) -> Result<(), Fail> {
        let mut ram = Ram::new(vec![in rt.alloc(); 0u8; 4096]?, 4, 8);
        let wrap = RawBurst::new(BurstKind::Wrap, 0, 2, 4);
        assert_eq!(rt; ram.open(Channel::Read, wrap), Err(SlaveFault::Simple));
        assert_eq!(rt;
            ram.open(Channel::Read, incr(0, 2, 9)),
            Err(SlaveFault::Simple)
        );
        assert_eq!(rt; ram.open(Channel::Read, incr(0xffe, 1, 1)), Ok(()));
        assert_eq!(rt; ram.open(Channel::Read, wrap), Err(SlaveFault::AlreadyOpen));
        let mut dead = Ram::new(vec![in rt.alloc(); 0u8; 4095]?, 4, 8);
        assert_eq!(rt; dead.open(Channel::Read, wrap), Err(SlaveFault::Dead));
        Ok(())
    }

    #[test]
    fn unmapped_bytes_answer_decerr(rt: HostRuntime) -> Result<(), Fail> {
        let mut ram = Ram::new(vec![in rt.alloc(); 7u8; 4096]?, 8, 256);
        assert_eq!(rt; ram.open(Channel::Read, incr(0x1000, 3, 1)), Ok(()));
        assert_eq!(rt; ram.take(), Ok((0, Response::DecErr, 0)));
        assert_eq!(rt; ram.open(Channel::Write, incr(0x1000, 3, 2)), Ok(()));
        assert_eq!(rt; ram.give(1, 0), Ok(Given::More(1)));
        assert_eq!(rt; ram.give(1, 1), Ok(Given::Done(Response::DecErr)));
        Ok(())
    }

    #[test]
    fn makings(rt: HostRuntime) {
        let table = [
            (3u8, 8u16, 4096usize, 16u8),
            (4, 0, 4096, 16),
            (4, 257, 4096, 16),
            (4, 256, 0, 17),
            (8, 1, 4097, 17),
            (8, 1, 1_052_672, 17),
            (8, 1, 1_048_576, 0),
        ];
        for (width, most, length, number) in table {
            let found = check(width, most, length).map_or_else(|fault| fault.number(), |_| 0);
            assert_eq!(rt; found, number);
        }
    }
}

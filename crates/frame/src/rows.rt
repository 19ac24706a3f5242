// The bursts that the frame goes in.
ghost use Rattle.std.specs.Prelude.{◌≡◌, ◌/◌};
ghost use Rattle.workload.specs.Moves.{row_request};

use fabric::Act;
use slave::Channel;
use workload::{Puts, Step, frame_request};

// The bytes of one frame, which is 20 ms of sound.
pub(crate) const FRAME_BYTES: usize = 640;

// Where the frame goes: an odd address.
pub(crate) const START: u16 = 0x101;

// The beats of one burst of the frame.
pub(crate) const BEATS: u16 = 16;

// One burst of the frame, and the ID that it is written with.
#[derive(Clone, Copy)]
pub(crate) struct Row {
    pub(crate) id: u8,
    pub(crate) start: u16,
    pub(crate) beats: u16,
}

// The first begins at the frame's odd address, the last has its last byte.
pub(crate) const ROWS: [Row; 6] = [
    Row {
        id: 0,
        start: START,
        beats: BEATS,
    },
    Row {
        id: 1,
        start: 0x180,
        beats: BEATS,
    },
    Row {
        id: 2,
        start: 0x200,
        beats: BEATS,
    },
    Row {
        id: 3,
        start: 0x280,
        beats: BEATS,
    },
    Row {
        id: 4,
        start: 0x300,
        beats: BEATS,
    },
    Row {
        id: 5,
        start: 0x380,
        beats: 1,
    },
];

impl Row {
    ghost use Rattle.frame.specs.Rows.{row_puts};

    // The request of master 0, which brings the frame.
    pub(crate) fn write_request(self) -> Step
        ensures { result ≡ Step.Act (row_request Channel.Write 0 self.id 4 self.start self.beats) }
    {
        Step::Act(frame_request(
            Channel::Write,
            0,
            self.id,
            4,
            u32::from(self.start),
            self.beats,
        ))
    }

    // Its puts, from the block of eight bytes on that it starts in.
    pub(crate) fn puts(self) -> Step
        ensures { result ≡ Step.Puts (row_puts self) }
    {
        Step::Puts(Puts {
            master: 0,
            start: u32::from(START),
            block: self.start / 8,
            beats: self.beats,
        })
    }

    // A master's request to read it.
    pub(crate) fn read_request(self, master: u8, id: u8, qos: u8) -> Step
        ensures { result ≡ Step.Act (row_request Channel.Read master id qos self.start self.beats) }
    {
        Step::Act(frame_request(
            Channel::Read,
            master,
            id,
            qos,
            u32::from(self.start),
            self.beats,
        ))
    }
}

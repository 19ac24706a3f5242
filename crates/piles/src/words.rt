// Acts and answers in few words: what one writer and one reader ask for, and what they are answered.
ghost use Rattle.burst.specs.Rules.{kind_code};
ghost use Rattle.fabric.specs.declared.types.Act.{Act};
ghost use Rattle.std.specs.Prelude.{◌≡◌};

use burst::{BurstKind, RawBurst};
use fabric::{Act, Answer, Outcome, Request};
use slave::{Channel, Response};

// A master, and the channel and the QoS that it asks with.
#[derive(Clone, Copy)]
pub(crate) struct Master {
    number: u8,
    channel: Channel,
    qos: u8,
}

pub(crate) const WRITER: Master = Master {
    number: 1,
    channel: Channel::Write,
    qos: 0,
};

pub(crate) const READER: Master = Master {
    number: 2,
    channel: Channel::Read,
    qos: 3,
};

pub(crate) const GRANT_WRITE: Act = Act::Grant(Channel::Write);

pub(crate) const GRANT_READ: Act = Act::Grant(Channel::Read);

impl Master {
    pub(crate) fn asks(&self, id: u8, kind: BurstKind, start: u32, size: u8, count: u16) -> Act
        ensures { result ≡ Act.Request self.now.channel (record {
          master = self.now.number;
          id = id;
          qos = self.now.qos;
          burst = record { kind = kind_code kind; start = start; size = size; count = count };
        }) }
    {
        Act::Request(
            self.channel,
            Request {
                master: self.number,
                id,
                qos: self.qos,
                burst: RawBurst::new(kind, start, size, count),
            },
        )
    }
}

pub(crate) fn put(word: u64, strobe: u8, last: bool) -> Act
    ensures { result ≡ Act.Put 1 word strobe last }
{
    Act::Put {
        master: WRITER.number,
        word,
        strobe,
        last,
    }
}

// What a grant answers.
pub(crate) fn granted(master: u8, id: u8) -> Outcome
    ensures { result ≡ Ok (Answer.Granted master id) }
{
    Ok(Answer::Granted { master, id })
}

// What the writer's last put answers.
pub(crate) fn done(id: u8, response: Response) -> Outcome
    ensures { result ≡ Ok (Answer.Done 1 id response) }
{
    Ok(Answer::Done {
        master: WRITER.number,
        id,
        response,
    })
}

// What the reader's take answers.
pub(crate) fn brought(id: u8, word: u64, response: Response, left: u16) -> Outcome
    ensures { result ≡ Ok (Answer.Beat 2 id word response left) }
{
    Ok(Answer::Beat {
        master: READER.number,
        id,
        word,
        response,
        left,
    })
}

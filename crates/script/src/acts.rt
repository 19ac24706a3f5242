// Acts as records: what each code uses, and nothing else stands.
ghost use Rattle.std.specs.Prelude.{◌≡◌};
ghost use Rattle.script.specs.Acts.{act_given, fits_code, no_beat, no_burst, read_act, record_answer, request_of, write_answer, written};
ghost use Rattle.script.specs.Laws.{ActsKept};

use crate::code::Code;
use crate::fault::ScriptFault;
use crate::record::{RECORD, Record};
use burst::RawBurst;
use fabric::{Act, Request};
use slave::Channel;

impl Record {
    // The request that the fields give.
    fn request(self) -> Request
        ensures { result ≡ request_of self }
    {
        Request {
            master: self.master,
            id: self.id,
            qos: self.qos,
            burst: RawBurst {
                kind: self.kind,
                start: self.address,
                size: self.size,
                count: u16::from(self.further) + 1,
            },
        }
    }

    // The act of a code and the fields that it uses.
    fn act(self, code: Code) -> Act
        ensures { result ≡ act_given code self }
    {
        match code {
            Code::RequestWrite => Act::Request(Channel::Write, self.request()),
            Code::RequestRead => Act::Request(Channel::Read, self.request()),
            Code::GrantWrite => Act::Grant(Channel::Write),
            Code::GrantRead => Act::Grant(Channel::Read),
            Code::Put => Act::Put {
                master: self.master,
                word: self.word,
                strobe: self.strobe,
                last: self.last == 1,
            },
            Code::Take => Act::Take,
        }
    }
}

// The record of an act; a request of no or of more than 256 beats has none.
impl TryFrom<Act> for Record {
    type Error = ScriptFault;

    ghost try_from_gives = { λ act r. r ≡ record_answer act };

    fn try_from(act: Act) -> Result<Record, ScriptFault> {
        let bare = Record {
            code: Code::from(act) as u8,
            ..Record::default()
        };
        match act {
            Act::Request(_, request) => {
                let burst = request.burst;
                let further = burst
                    .count
                    .checked_sub(1)
                    .and_then(|more| u8::try_from(more).ok());
                Ok(Record {
                    master: request.master,
                    id: request.id,
                    qos: request.qos,
                    kind: burst.kind,
                    size: burst.size,
                    further: further.ok_or(ScriptFault::Record)?,
                    address: burst.start,
                    ..bare
                })
            }
            Act::Put {
                master,
                word,
                strobe,
                last,
            } => Ok(Record {
                master,
                last: u8::from(last),
                strobe,
                word,
                ..bare
            }),
            Act::Grant(_) | Act::Take => Ok(bare),
        }
    }
}

impl Record {
    // Nothing of a request's burst stands, but for the master.
    fn has_no_burst(self) -> bool
        ensures { result ≡ no_burst self }
    {
        self.id == 0
            && self.qos == 0
            && self.kind == 0
            && self.size == 0
            && self.further == 0
            && self.address == 0
    }

    // Nothing of a put's beat stands, but for the master.
    fn has_no_beat(self) -> bool
        ensures { result ≡ no_beat self }
    {
        self.last == 0 && self.strobe == 0 && self.word == 0
    }

    // What the code does not use is zero, and a put's last mark is 0 or 1.
    fn fits(self, code: Code) -> bool
        ensures { result ≡ fits_code code self }
    {
        match code {
            Code::RequestWrite | Code::RequestRead => self.has_no_beat() && self.zeros == 0,
            Code::Put => self.has_no_burst() && self.zeros == 0 && self.last <= 1,
            Code::GrantWrite | Code::GrantRead | Code::Take => {
                self.master == 0 && self.has_no_burst() && self.has_no_beat() && self.zeros == 0
            }
        }
    }
}

// The act of a record of 24 bytes; a bad record is refused.
#[tactic(auto, using(crate::proofs::Keeping::acts_kept))]
pub fn read_act(bytes: &[u8]) -> Result<Act, ScriptFault>
    ensures answer { result ≡ read_act bytes.now }
    ensures law { ActsKept }
{
    let record = Record::read(bytes).ok_or(ScriptFault::Record)?;
    let code = Code::try_from(record.code)?;
    if record.fits(code) {
        Ok(record.act(code))
    } else {
        Err(ScriptFault::Record)
    }
}

// Writes the record of an act to the front of a buffer and answers its 24 bytes. A request of no or of more than 256
// beats is refused, then a buffer that is too short; a refused call writes nothing, and bytes behind the record stay.
#[tactic(auto, using(crate::proofs::Keeping::acts_kept))]
pub fn write_act(out: &mut [u8], act: Act) -> Result<usize, ScriptFault>
    ensures answer { result ≡ write_answer act out.old }
    ensures after { out.new ≡ written act out.old }
    ensures law { ActsKept }
{
    let record = Record::try_from(act)?;
    if out.len() < RECORD {
        return Err(ScriptFault::Short);
    }
    out[..RECORD].copy_from_slice(&record.bytes());
    Ok(RECORD)
}

// The code of a record: which act it holds.
ghost use Rattle.std.specs.Prelude.{◌≡◌};
ghost use Rattle.script.specs.Codes.{Decodes, code_of};

use crate::fault::ScriptFault;
use fabric::Act;
use slave::Channel;

#[derive(Clone, Copy)]
pub enum Code {
    RequestWrite = 0,
    RequestRead = 1,
    GrantWrite = 2,
    GrantRead = 3,
    Put = 4,
    Take = 5,
}

impl TryFrom<u8> for Code {
    type Error = ScriptFault;

    ghost try_from_gives = { Decodes };

    fn try_from(code: u8) -> Result<Code, ScriptFault> {
        match code {
            0 => Ok(Code::RequestWrite),
            1 => Ok(Code::RequestRead),
            2 => Ok(Code::GrantWrite),
            3 => Ok(Code::GrantRead),
            4 => Ok(Code::Put),
            5 => Ok(Code::Take),
            _ => Err(ScriptFault::Record),
        }
    }
}

impl From<Act> for Code {
    ghost from_gives = { λ act r. r ≡ code_of act };

    fn from(act: Act) -> Code {
        match act {
            Act::Request(Channel::Write, _) => Code::RequestWrite,
            Act::Request(Channel::Read, _) => Code::RequestRead,
            Act::Grant(Channel::Write) => Code::GrantWrite,
            Act::Grant(Channel::Read) => Code::GrantRead,
            Act::Put { .. } => Code::Put,
            Act::Take => Code::Take,
        }
    }
}

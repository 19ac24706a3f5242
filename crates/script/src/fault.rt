// Why a script, a record or a buffer is refused.
ghost use Rattle.script.specs.Faults.{script_number};
ghost use Rattle.std.specs.Prelude.{◌≡◌};

// Each refusal with its number.
#[derive(Clone, Copy, PartialEq, Eq, Debug)]
pub enum ScriptFault {
    // the file's header is bad
    Header = 20,
    // an act's record is bad, or an act has none
    Record = 21,
    // the buffer is shorter than a record
    Short = 22,
}

impl ScriptFault {
    // The number of the refusal.
    pub fn number(self) -> u8
        ensures { result ≡ script_number self }
    {
        self as u8
    }
}

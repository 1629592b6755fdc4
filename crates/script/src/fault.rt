// The refusals of a script, and their numbers.
ghost use Rattle.std.specs.Prelude.{◌≡◌, Some};
ghost use Rattle.script.specs.Faults.{number_of, fault_words};

use std::error::Error;
use std::fmt;

#[derive(Clone, Copy, PartialEq, Eq, Debug)]
pub enum ScriptFault {
    // The byte is no command.
    Unknown = 51,
    // The script ends before the command's last operand byte.
    CutShort = 52,
    // There is no place for the whole command.
    NoPlace = 53,
}

impl ScriptFault {
    // An enum's own and no trait's: the cast needs the enum, so a trait would have the same body seven times.
    pub fn number(self) -> u8
        ensures { result ≡ number_of self }
    {
        self as u8
    }
}

impl fmt::Display for ScriptFault {
    ghost output = { λ fault. Some (fault_words fault) };

    fn fmt<W: fmt::Write>(&self, f: &mut fmt::Formatter<W>) -> fmt::Result {
        f.write_str(match self {
            ScriptFault::Unknown => "the byte is no command",
            ScriptFault::CutShort => "the script ends inside the command",
            ScriptFault::NoPlace => "there is no place for the whole of it",
        })
    }
}

impl Error for ScriptFault {}

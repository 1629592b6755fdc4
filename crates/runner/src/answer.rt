// The answers to a script's commands, and their bytes.
ghost use Rattle.std.specs.Prelude.{◌≡◌};
ghost use Rattle.script.specs.Commands.{order_of};
ghost use Rattle.script.specs.Faults.{numbered};
ghost use Rattle.script.specs.Writes.{size_in, block_after};
ghost use Rattle.runner.specs.Answers.{told_of, answer_bytes, answer_size};

use crate::notice::Notice;
use memory::MemoryFault;
use registers::refusal::Refusal;
use script::command::Command;
use script::fault::ScriptFault;
use script::writer::place;
use tape::TapeFault;

/// What a command answers: what its call did.
#[derive(Clone, Copy, PartialEq, Eq, Debug)]
pub enum Answer {
    Out(Result<(), Refusal>),
    In(Result<u8, Refusal>),
    Lines(Result<(), Refusal>),
    Step { steps: u16, transfers: u16 },
    Put(Result<(), MemoryFault>),
    Next(Result<Notice, TapeFault>),
}

/// How many bytes the answer to a command has, whatever it says: a command is only played where they find place.
pub(crate) fn answer_size(command: Command) -> usize
    ensures { result ≡ answer_size (order_of command.entry) }
{
    match command {
        Command::Out { .. } | Command::Lines { .. } | Command::Put { .. } => 2,
        Command::In { .. } => 3,
        Command::Step { .. } => 5,
        Command::Next => 8,
    }
}

impl Answer {
    /// Writes the whole answer at the start of `out` and says how long it is, or writes nothing.
    // The first byte is the command's plus 80h, as docs/scripts.md lists them.
    pub(crate) fn write(self, out: &mut [u8]) -> Result<usize, ScriptFault>
        ensures answer { numbered result ≡ size_in out.old (answer_bytes (told_of self)) }
        ensures block { out.new ≡ block_after out.old (answer_bytes (told_of self)) }
    {
        match self {
            Answer::Out(done) => place(&[0x81, done.err().map_or(0, Refusal::number)], out),
            Answer::In(done) => {
                let value = done.unwrap_or(0);
                place(&[0x82, done.err().map_or(0, Refusal::number), value], out)
            }
            Answer::Lines(done) => place(&[0x83, done.err().map_or(0, Refusal::number)], out),
            Answer::Step { steps, transfers } => {
                let [a, b] = steps.to_le_bytes();
                let [c, d] = transfers.to_le_bytes();
                place(&[0x84, a, b, c, d], out)
            }
            Answer::Put(done) => place(&[0x85, done.err().map_or(0, MemoryFault::number)], out),
            Answer::Next(Ok(notice)) => {
                let (channel, cause, address) = notice.numbers();
                let [a, b, c, d] = address.to_le_bytes();
                place(&[0x86, 0, channel, cause, a, b, c, d], out)
            }
            Answer::Next(Err(fault)) => place(&[0x86, fault.number(), 0, 0, 0, 0, 0, 0], out),
        }
    }
}

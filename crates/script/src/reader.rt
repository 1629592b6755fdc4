// A reader that keeps its place in a script.
ghost use Rattle.std.specs.Prelude.{◌≡◌, map, length, take, drop};
ghost use Rattle.script.specs.Commands.{order_of};
ghost use Rattle.script.specs.Faults.{refusal_of};
ghost use Rattle.script.specs.Laws.{ScriptRewrites};
ghost use Rattle.script.specs.Reads.{left, read_of, rest_of, read_into, said_by, Shorter};

use crate::command::{Command, IN, LINES, NEXT, OUT, PUT, STEP};
use crate::fault::ScriptFault;
use crate::progress::Progress;

// A script, from the command that is read next.
#[derive(Drop)]
pub struct Script<'a> {
    rest: &'a [u8],
}

impl<'a> Script<'a> {
    pub fn new(bytes: &'a [u8]) -> Script<'a>
        ensures { left result ≡ bytes.now }
    {
        Script { rest: bytes }
    }

    // The next command, and `None` at the end. A refusal leaves the place where it was.
    // An iterator that did so would not end, so `Commands` is a type of its own.
    pub fn next(&mut self) -> Result<Option<Command<'a>>, ScriptFault>
        ensures answer { said_by result ≡ read_of (left self.old) }
        ensures rest { left self.new ≡ rest_of (left self.old) }
        ensures shorter { Shorter result (left self.old) (left self.new) }
    {
        // An arm that reads a command returns by itself: as the match's value it would be proved once for each way to it.
        match *self.rest {
            [] => Ok(None),
            [OUT, low, high, value, ref rest @ ..] => {
                self.rest = rest;
                let port = u16::from_le_bytes([low, high]);
                return Ok(Some(Command::Out { port, value }));
            }
            [IN, low, high, ref rest @ ..] => {
                self.rest = rest;
                let port = u16::from_le_bytes([low, high]);
                return Ok(Some(Command::In { port }));
            }
            [LINES, bits, ref rest @ ..] => {
                self.rest = rest;
                return Ok(Some(Command::Lines { bits }));
            }
            [STEP, low, high, ref rest @ ..] => {
                self.rest = rest;
                let count = u16::from_le_bytes([low, high]);
                return Ok(Some(Command::Step { count }));
            }
            [PUT, a, b, c, d, ref rest @ ..] => {
                let Some((bytes, rest)) = rest.split_first_chunk::<8>() else {
                    return Err(ScriptFault::CutShort);
                };
                self.rest = rest;
                let address = u32::from_le_bytes([a, b, c, d]);
                return Ok(Some(Command::Put { address, bytes }));
            }
            [NEXT, ref rest @ ..] => {
                self.rest = rest;
                return Ok(Some(Command::Next));
            }
            [OUT | IN | LINES | STEP | PUT, ..] => Err(ScriptFault::CutShort),
            _ => Err(ScriptFault::Unknown),
        }
    }
}

// Reads a script into `commands`, up to its end or the first refusal.
pub fn read_all<'a>(bytes: &'a [u8], commands: &mut [Command<'a>]) -> Progress
    ensures done { result.done ≡ length (read_into (length commands.old) bytes.now).orders }
    ensures refusal { refusal_of result.refusal ≡ (read_into (length commands.old) bytes.now).refusal }
    ensures commands { map order_of (take result.done commands.new) ≡ (read_into (length commands.old) bytes.now).orders }
    ensures others { drop result.done commands.new ≡ drop result.done commands.old }
    ensures rewrites { ScriptRewrites bytes.now }
{
    let mut script = Script::new(bytes);
    for (done, place) in commands.iter_mut().enumerate() {
        match script.next() {
            Ok(Some(command)) => *place = command,
            Ok(None) => return Progress {
                done,
                refusal: None,
            },
            Err(refusal) => return Progress {
                done,
                refusal: Some(refusal),
            },
        }
    }
    // Every place is taken.
    let refusal = match script.next() {
        Ok(Some(_)) => Some(ScriptFault::NoPlace),
        Ok(None) => None,
        Err(refusal) => Some(refusal),
    };
    Progress {
        done: commands.len(),
        refusal,
    }
}

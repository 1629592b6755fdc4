// Writing commands as the bytes of a script.
ghost use Rattle.std.specs.Prelude.{◌≡◌, ◌++◌, map, length, drop, None};
ghost use Rattle.script.specs.Commands.{order_of, bytes_of, script_of, Put};
ghost use Rattle.script.specs.Faults.{numbered, refusal_of};
ghost use Rattle.script.specs.Laws.{CommandReadsBack, ScriptReadsBack};
ghost use Rattle.script.specs.Writes.{size_in, block_after, fitting, refused_in};

use crate::command::{Command, IN, LINES, NEXT, OUT, PUT, STEP};
use crate::fault::ScriptFault;
use crate::progress::Progress;

// Writes all of `bytes` at the start of `out` and answers how many, or writes nothing.
pub fn place(bytes: &[u8], out: &mut [u8]) -> Result<usize, ScriptFault>
    ensures answer { numbered result ≡ size_in out.old bytes.now }
    ensures block { out.new ≡ block_after out.old bytes.now }
{
    let (start, _) = out
        .split_at_mut_checked(bytes.len())
        .ok_or(ScriptFault::NoPlace)?;
    start.copy_from_slice(bytes);
    Ok(bytes.len())
}

// PUT's byte, its address and its eight bytes.
fn put_bytes(address: u32, bytes: &[u8; 8]) -> [u8; 13]
    ensures value { result ≡ bytes_of (Put address bytes.now) }
    ensures eight { length bytes.now ≡ 8 }
{
    let mut whole = [PUT; 13];
    whole[1..5].copy_from_slice(&address.to_le_bytes());
    whole[5..13].copy_from_slice(bytes);
    whole
}

impl Command<'_> {
    // Writes the whole command at the start of `out` and answers its length, or writes nothing.
    pub fn write(self, out: &mut [u8]) -> Result<usize, ScriptFault>
        ensures answer { numbered result ≡ size_in out.old (bytes_of (order_of self.entry)) }
        ensures block { out.new ≡ block_after out.old (bytes_of (order_of self.entry)) }
        ensures reads_back { CommandReadsBack (order_of self.entry) }
    {
        match self {
            Command::Out { port, value } => {
                let [low, high] = port.to_le_bytes();
                place(&[OUT, low, high, value], out)
            }
            Command::In { port } => {
                let [low, high] = port.to_le_bytes();
                place(&[IN, low, high], out)
            }
            Command::Lines { bits } => place(&[LINES, bits], out),
            Command::Step { count } => {
                let [low, high] = count.to_le_bytes();
                place(&[STEP, low, high], out)
            }
            Command::Put { address, bytes } => place(&put_bytes(address, bytes), out),
            Command::Next => place(&[NEXT], out),
        }
    }
}

// Writes a row of commands into `out`, up to the last or to the first that finds no place.
pub fn write_all(commands: &[Command], out: &mut [u8]) -> Progress
    ensures done { result.done ≡ length (script_of (fitting (length out.old) (map order_of commands.now))) }
    ensures refusal { refusal_of result.refusal ≡ refused_in (length out.old) (map order_of commands.now) }
    ensures block { out.new ≡ script_of (fitting (length out.old) (map order_of commands.now)) ++ drop result.done out.old }
    ensures whole { result.refusal ≡ None → fitting (length out.old) (map order_of commands.now) ≡ map order_of commands.now }
    ensures reads_back { ScriptReadsBack (fitting (length out.old) (map order_of commands.now)) }
{
    // A `for`, and no `try_fold`: of what a closure writes into `out` a proof knows nothing.
    let mut done = 0;
    for command in commands {
        match command.write(&mut out[done..]) {
            Ok(size) => done += size,
            Err(refusal) => return Progress {
                done,
                refusal: Some(refusal),
            },
        }
    }
    Progress {
        done,
        refusal: None,
    }
}

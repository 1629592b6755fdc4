// Runs the script on standard input, and prints its answers.
#![tactic(auto)]

ghost use Rattle.std.specs.Prelude.{◌≤◌, length, IfOk};

use runner::{Outcome, sillmint_run};
use std::io;
use std::io::{Read, Write};

/// How much of standard input is used.
const SCRIPT: usize = 8_192;

/// How many bytes of memory there are, all zero at first.
const MEMORY: usize = 32_768;

/// How many bytes of answers are printed at most: eight for each byte of the script.
const OUTPUT: usize = 65_536;

/// Reads up to the end of the input or of `bytes`, and says how many bytes there are.
// Not `read_to_end`, which takes memory from a heap and asks for 512 bytes at first; nor `io::copy`, which has 8 KiB of its own on the stack.
fn fill<R: Read>(input: &mut R, bytes: &mut [u8]) -> io::Result<usize>
    ensures { IfOk result (λ size. size ≤ length bytes.new) }
{
    let mut size = 0;
    while size < bytes.len() {
        let more = input.read(&mut bytes[size..])?;
        if more == 0 {
            break;
        }
        size += more;
    }
    Ok(size)
}

fn main(rt: HostRuntime) -> io::Result<()> {
    let mut script = [0u8; SCRIPT];
    let size = fill(&mut rt.stdin(), &mut script)?;
    let mut memory = [0u8; MEMORY];
    let mut output = [0u8; OUTPUT];
    let Outcome { length, .. } = sillmint_run(&script[..size], &mut memory, &mut output);
    rt.stdout().write_all(&output[..length])
}

// Says in words what the script on standard input does.
#![tactic(auto)]

mod line;
mod machine;
mod seen;

use line::Line;
use machine::Machine;
use runner::{Answer, NOTICES, Notice};
use script::command::Command;
use script::fault::ScriptFault;
use script::reader::Script;
use seen::Seen;
use std::io;
use std::io::Read;
use tape::Blank;

/// How much of standard input is used.
const SCRIPT: u64 = 8_192;

/// How many bytes of memory there are, all zero at first.
const MEMORY: usize = 32_768;

/// How many bytes of the script a command has: its writer tells, since a reader does not tell its place.
fn size(command: Command) -> usize {
    let mut bytes = [0; 13];
    command.write(&mut bytes).unwrap_or(0)
}

/// The last line: the script's end, or why it cannot be read on.
fn print_end(rt: &HostRuntime, at: usize, fault: Option<ScriptFault>) -> io::Result<()> {
    let Some(fault) = fault else {
        return println!(rt; "{at:>5}  end of the script");
    };
    let number = fault.number();
    println!(rt; "{at:>5}  stopped at byte {at}, {number}: {fault}")
}

/// Plays a script and prints a line for each command, with the place of its first byte.
fn print_script(
    rt: &HostRuntime,
    script: &[u8],
    machine: &mut Machine,
    seen: &mut [Seen],
) -> io::Result<()> {
    let mut at = 0usize;
    for command in Script::new(script) {
        let command = match command {
            Ok(command) => command,
            Err(fault) => return print_end(rt, at, Some(fault)),
        };
        let answer = machine.play(command);
        let line = Line { command, answer };
        println!(rt; "{at:>5}  {line}")?;
        seen::count(seen, answer);
        at = at.saturating_add(size(command));
    }
    print_end(rt, at, None)
}

/// Prints the notices that the script did not ask for, at most as many as can wait: so it ends, whatever a machine answers.
fn print_left(rt: &HostRuntime, machine: &mut Machine, seen: &mut [Seen]) -> io::Result<()> {
    for _ in 0..NOTICES {
        let answer = machine.play(Command::Next);
        let Answer::Next(Ok(notice)) = answer else {
            break;
        };
        println!(rt; "       never asked for: {notice}")?;
        seen::count(seen, answer);
    }
    Ok(())
}

/// Prints a line for each channel of which there was a notice.
fn print_summary(rt: &HostRuntime, seen: &[Seen]) -> io::Result<()> {
    for (channel, seen) in seen.iter().enumerate() {
        if *seen != Seen::default() {
            println!(rt; "       channel {channel}: {seen}")?;
        }
    }
    Ok(())
}

fn main(rt: HostRuntime) -> io::Result<()> {
    let mut script = Vec::new(rt.alloc());
    rt.stdin().take(SCRIPT).read_to_end(&mut script)?;
    let mut bytes = [0; MEMORY];
    let mut cells = [Notice::blank(); NOTICES];
    let mut machine = Machine::new(&mut bytes, &mut cells);
    let mut seen = [Seen::default(); 8];
    print_script(&rt, script.as_slice(), &mut machine, &mut seen)?;
    print_left(&rt, &mut machine, &mut seen)?;
    print_summary(&rt, &seen)
}

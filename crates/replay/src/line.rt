// A command with its answer, as a line.
use runner::Answer;
use script::command::Command;
use std::fmt;
use wording::{Levels, PortRead, PortValue, PortWrite};

/// What a command asks for. The words are this program's, so another crate's type gets them through a type of its own.
#[derive(Clone, Copy)]
struct Order<'a>(Command<'a>);

impl fmt::Display for Order<'_> {
    fn fmt<W: fmt::Write>(&self, f: &mut fmt::Formatter<W>) -> fmt::Result {
        match self.0 {
            Command::Out { port, value } => {
                let write = PortWrite { port, value };
                write!(f, "{write}")
            }
            Command::In { port } => {
                let read = PortRead { port };
                write!(f, "{read}")
            }
            Command::Lines { bits } => {
                let levels = Levels { bits };
                write!(f, "{levels}")
            }
            Command::Step { count } => write!(f, "steps: {count} asked for"),
            Command::Put { address, bytes } => {
                f.write_str("put")?;
                for byte in bytes {
                    write!(f, " {byte:02X}")?;
                }
                write!(f, " at {address:08X}h")
            }
            Command::Next => f.write_str("next notice"),
        }
    }
}

/// What a refusal adds to a line. The number comes beside the reason: no type has every enum of refusals.
fn say_refused<W: fmt::Write, R: fmt::Display>(
    f: &mut fmt::Formatter<W>,
    number: u8,
    reason: &R,
) -> fmt::Result {
    write!(f, ": refused, {number}: {reason}")
}

/// The line of a command that was played.
#[derive(Clone, Copy)]
pub struct Line<'a> {
    pub command: Command<'a>,
    pub answer: Answer,
}

impl Line<'_> {
    /// What the command answered.
    fn say_answer<W: fmt::Write>(&self, f: &mut fmt::Formatter<W>) -> fmt::Result {
        match (self.answer, self.command) {
            (Answer::In(Ok(value)), Command::In { port }) => {
                let value = PortValue { port, value };
                write!(f, ": {value}")
            }
            (Answer::Step { steps, transfers }, _) => write!(
                f,
                ", {steps} done, transfers: {transfers}"
            ),
            (Answer::Next(Ok(notice)), _) => write!(f, ": {notice}"),
            (Answer::Next(Err(empty)), _) => {
                let number = empty.number();
                write!(f, ": none, {number}: {empty}")
            }
            (Answer::Out(Err(why)) | Answer::In(Err(why)) | Answer::Lines(Err(why)), _) => {
                say_refused(f, why.number(), &why)
            }
            (Answer::Put(Err(why)), _) => say_refused(f, why.number(), &why),
            _ => Ok(()),
        }
    }
}

impl fmt::Display for Line<'_> {
    fn fmt<W: fmt::Write>(&self, f: &mut fmt::Formatter<W>) -> fmt::Result {
        let order = Order(self.command);
        write!(f, "{order}")?;
        self.say_answer(f)
    }
}

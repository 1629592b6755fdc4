// A call and its answer in words.
use controller::event::Event;
use controller::fault::Fault;
use controller::grant::{BusRefusal, Cycle};
use controller::inspect::Inspection;
use registers::refusal::Refusal;
use runs::calls::{Answer, Call};
use std::fmt;

/// What an inspection that is refused shows.
const NOTHING: Inspection = Inspection {
    address: 0,
    count: 0,
};

/// A call with what it answered.
#[derive(Clone, Copy)]
pub struct Said {
    pub call: Call,
    pub answer: Answer,
}

impl fmt::Display for Said {
    fn fmt<W: fmt::Write>(&self, f: &mut fmt::Formatter<W>) -> fmt::Result {
        let name = CallWords(self.call);
        write!(f, "{name}: ")?;
        say_answer(f, self.answer)
    }
}

// The words are this program's, so another crate's type gets them through a type of its own; so below.
#[derive(Clone, Copy)]
struct CallWords(Call);

impl fmt::Display for CallWords {
    fn fmt<W: fmt::Write>(&self, f: &mut fmt::Formatter<W>) -> fmt::Result {
        match self.0 {
            Call::Write { port, value } => write!(f, "write {port:03X}h {value:02X}h"),
            Call::Read { port } => write!(f, "read  {port:03X}h"),
            Call::Lines { bits } => write!(f, "lines {bits:02X}h"),
            Call::Step => write!(f, "step"),
            Call::Inspect { channel } => write!(f, "inspect channel {channel}"),
            Call::Take => write!(f, "take"),
            Call::Cycle {
                cycle: Cycle::Read { address },
            } => write!(f, "read cycle at {address:06X}h"),
            Call::Cycle {
                cycle: Cycle::Write { address, byte },
            } => write!(f, "write cycle {byte:02X}h at {address:06X}h"),
            Call::Release => write!(f, "release"),
        }
    }
}

/// What an access answered: that it was accepted, or the refusal's number, which is all that this program says of it.
fn say_done<W: fmt::Write>(f: &mut fmt::Formatter<W>, refusal: Option<u8>) -> fmt::Result {
    match refusal {
        None => f.write_str("accepted"),
        Some(number) => write!(f, "refused {number}"),
    }
}

fn say_answer<W: fmt::Write>(f: &mut fmt::Formatter<W>, answer: Answer) -> fmt::Result {
    match answer {
        Answer::Write(done) | Answer::Lines(done) => say_done(f, done.err().map(Refusal::number)),
        Answer::Release(done) => say_done(f, done.err().map(BusRefusal::number)),
        Answer::Step(outcome) => {
            let outcome = Outcome(outcome);
            write!(f, "{outcome}")
        }
        Answer::Read(read) => {
            let value = read.unwrap_or(0);
            say_done(f, read.err().map(Refusal::number))?;
            write!(f, ", {value:02X}h")
        }
        Answer::Inspect(seen) => {
            let Inspection { address, count } = seen.unwrap_or(NOTHING);
            say_done(f, seen.err().map(Refusal::number))?;
            write!(f, ", address {address:04X}h, count {count:04X}h")
        }
        Answer::Take(taken) => {
            let channel = taken.unwrap_or(0);
            say_done(f, taken.err().map(BusRefusal::number))?;
            write!(f, ", channel {channel}")
        }
        Answer::Cycle(cycle) => {
            let byte = cycle.unwrap_or(0);
            say_done(f, cycle.err().map(BusRefusal::number))?;
            write!(f, ", {byte:02X}h")
        }
    }
}

#[derive(Clone, Copy)]
struct Outcome(Result<Event, Fault>);

impl fmt::Display for Outcome {
    fn fmt<W: fmt::Write>(&self, f: &mut fmt::Formatter<W>) -> fmt::Result {
        match self.0 {
            Ok(Event::Idle) => write!(f, "idle"),
            Ok(Event::Away) => write!(f, "the bus is away"),
            Ok(Event::Lent { channel }) => write!(f, "the bus goes out to channel {channel}"),
            Ok(Event::Fetched { channel, address }) => write!(
                f,
                "channel {channel} fetches its entry at {address:06X}h"
            ),
            Ok(
                Event::Moved {
                    channel,
                    address,
                    unit,
                    signal,
                },
            ) => {
                write!(f, "channel {channel} moves {unit:04X}h at {address:06X}h")?;
                match signal {
                    None => Ok(()),
                    Some(signal) => write!(f, ", {signal}"),
                }
            }
            Err(
                Fault {
                    cause,
                    channel,
                    address,
                },
            ) => {
                let number = cause.number();
                write!(
                    f,
                    "channel {channel} faults with {number} at {address:06X}h"
                )
            }
        }
    }
}

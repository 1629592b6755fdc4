// The calls that a controller takes, and what they answer.
use controller::event::Event;
use controller::fault::Fault;
use controller::grant::{BusRefusal, Cycle};
use controller::inspect::Inspection;
use registers::refusal::Refusal;

// One call of the controller's eight.
#[derive(Clone, Copy, PartialEq, Eq, Debug)]
pub enum Call {
    Write { port: u16, value: u8 },
    Read { port: u16 },
    Lines { bits: u8 },
    Step,
    Inspect { channel: u8 },
    Take,
    Cycle { cycle: Cycle },
    Release,
}

// What a call answered. A take answers the channel of its grant, a cycle the byte that it moved.
#[derive(Clone, Copy, PartialEq, Eq, Debug)]
pub enum Answer {
    Write(Result<(), Refusal>),
    Read(Result<u8, Refusal>),
    Lines(Result<(), Refusal>),
    Step(Result<Event, Fault>),
    Inspect(Result<Inspection, Refusal>),
    Take(Result<u8, BusRefusal>),
    Cycle(Result<u8, BusRefusal>),
    Release(Result<(), BusRefusal>),
}

// What a driver writes and reads.
use crate::channels::Channels;
use crate::names::PortName;
use crate::values::{say_asked, say_shown};
use registers::ports::{read_port, write_port};
use std::fmt;

/// A byte that is written, as `write 05h to DMA1 mask (000Ah), channel 1 set`.
#[derive(Clone, Copy)]
pub struct PortWrite {
    pub port: u16,
    pub value: u8,
}

impl fmt::Display for PortWrite {
    fn fmt<W: fmt::Write>(&self, f: &mut fmt::Formatter<W>) -> fmt::Result {
        let PortWrite { port, value } = *self;
        let reached = write_port(port);
        let name = PortName { port, reached };
        write!(f, "write {value:02X}h to {name}")?;
        say_asked(f, reached, value)
    }
}

/// A port that is read, as `read DMA1 status (0008h)`.
#[derive(Clone, Copy)]
pub struct PortRead {
    pub port: u16,
}

impl fmt::Display for PortRead {
    fn fmt<W: fmt::Write>(&self, f: &mut fmt::Formatter<W>) -> fmt::Result {
        let port = self.port;
        let reached = read_port(port);
        let name = PortName { port, reached };
        write!(f, "read {name}")
    }
}

/// A byte that a port showed, as `22h, terminal count: 1, requests: 1`.
// It has the fields of a byte written; a type of its own, since it is said in other words.
#[derive(Clone, Copy)]
pub struct PortValue {
    pub port: u16,
    pub value: u8,
}

impl fmt::Display for PortValue {
    fn fmt<W: fmt::Write>(&self, f: &mut fmt::Formatter<W>) -> fmt::Result {
        let PortValue { port, value } = *self;
        write!(f, "{value:02X}h")?;
        say_shown(f, read_port(port), value)
    }
}

/// The levels of the lines, as `lines high: 1 5`.
#[derive(Clone, Copy)]
pub struct Levels {
    pub bits: u8,
}

impl fmt::Display for Levels {
    fn fmt<W: fmt::Write>(&self, f: &mut fmt::Formatter<W>) -> fmt::Result {
        let high = Channels {
            bits: self.bits,
            first: 0,
        };
        write!(f, "lines high: {high}")
    }
}

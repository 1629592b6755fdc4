// What a step cannot do, and where it met it.
ghost use Rattle.std.specs.Prelude.{◌≡◌, Some};
ghost use Rattle.controller.specs.Faults.{table_number, table_words, cause_number, cause_words, layer_of};
ghost use Rattle.controller.specs.declared.fault.Cause.TheVariants.{Memory, Port, Table};

use memory::MemoryFault;
use ports::PortFault;
use std::error::Error;
use std::fmt;

// Why no entry is fetched.
#[derive(Clone, Copy, PartialEq, Eq, Debug)]
pub enum TableFault {
    EntryAbsent = 41,
    TooManyEntries = 42,
}

// A refusal of the memory, of the bank or of the table, or a unit too wide for a transfer of bytes.
#[derive(Clone, Copy, PartialEq, Eq, Debug)]
pub enum Cause {
    Memory(MemoryFault),
    Port(PortFault),
    TooWide,
    Table(TableFault),
}

// The layer that refused.
#[derive(Clone, Copy, PartialEq, Eq, Debug)]
pub enum Layer {
    Memory,
    Port,
    Table,
}

// What was met, of which channel, and where. It has no `Display`: a notice and the programs each say a fault in words of their own.
#[derive(Clone, Copy, PartialEq, Eq, Debug)]
pub struct Fault {
    pub cause: Cause,
    pub channel: u8,
    pub address: u32,
}

impl TableFault {
    // The refusal's number.
    // An enum's own and no trait's: the cast needs the enum, so a trait would have the same body seven times.
    pub fn number(self) -> u8
        ensures { result ≡ table_number self }
    {
        self as u8
    }
}

impl Cause {
    // The number that a notice shows.
    pub fn number(self) -> u8
        ensures { result ≡ cause_number self }
    {
        match self {
            Cause::Memory(fault) => fault.number(),
            Cause::Port(fault) => fault.number(),
            Cause::TooWide => 34,
            Cause::Table(fault) => fault.number(),
        }
    }

    // The layer that it comes from.
    pub fn layer(self) -> Layer
        ensures { result ≡ layer_of self }
    {
        match self {
            Cause::Memory(_) => Layer::Memory,
            Cause::Port(_) | Cause::TooWide => Layer::Port,
            Cause::Table(_) => Layer::Table,
        }
    }
}

impl From<MemoryFault> for Cause {
    ghost from_gives = { λ refusal r. r ≡ Memory refusal };

    fn from(refusal: MemoryFault) -> Cause {
        Cause::Memory(refusal)
    }
}

impl From<PortFault> for Cause {
    ghost from_gives = { λ refusal r. r ≡ Port refusal };

    fn from(refusal: PortFault) -> Cause {
        Cause::Port(refusal)
    }
}

impl From<TableFault> for Cause {
    ghost from_gives = { λ refusal r. r ≡ Table refusal };

    fn from(refusal: TableFault) -> Cause {
        Cause::Table(refusal)
    }
}

impl fmt::Display for TableFault {
    ghost output = { λ fault. Some (table_words fault) };

    fn fmt<W: fmt::Write>(&self, f: &mut fmt::Formatter<W>) -> fmt::Result {
        f.write_str(match self {
            TableFault::EntryAbsent => "no memory at a byte of the list entry",
            TableFault::TooManyEntries => "the list has more than 4,096 entries",
        })
    }
}

impl fmt::Display for Cause {
    ghost output = { λ cause. Some (cause_words cause) };

    fn fmt<W: fmt::Write>(&self, f: &mut fmt::Formatter<W>) -> fmt::Result {
        match self {
            Cause::Memory(fault) => write!(f, "{fault}"),
            Cause::Port(fault) => write!(f, "{fault}"),
            Cause::TooWide => f.write_str("the device's unit is above 255, in a transfer of bytes"),
            Cause::Table(fault) => write!(f, "{fault}"),
        }
    }
}

impl Error for TableFault {}

impl Error for Cause {}

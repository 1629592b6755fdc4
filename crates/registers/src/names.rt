// The names of ports and of what they reach, as they are printed.
ghost use Rattle.std.specs.Prelude.{Some};
ghost use Rattle.registers.specs.Names.{dma_words, field_words, control_words, write_words, read_words};

use crate::ports::{Control, Dma, Field, ReadPort, WritePort};
use std::fmt;

impl fmt::Display for Dma {
    ghost output = { λ dma. Some (dma_words dma) };

    fn fmt<W: fmt::Write>(&self, f: &mut fmt::Formatter<W>) -> fmt::Result {
        f.write_str(match self {
            Dma::One => "DMA1",
            Dma::Two => "DMA2",
        })
    }
}

impl fmt::Display for Field {
    ghost output = { λ field. Some (field_words field) };

    fn fmt<W: fmt::Write>(&self, f: &mut fmt::Formatter<W>) -> fmt::Result {
        match self {
            Field::Address => f.write_str("address"),
            Field::Count => f.write_str("count"),
            Field::LowPage => f.write_str("low page"),
            Field::HighPage => f.write_str("high page"),
            Field::Table(byte) => write!(f, "table pointer, byte {byte}"),
        }
    }
}

impl fmt::Display for Control {
    ghost output = { λ control. Some (control_words control) };

    fn fmt<W: fmt::Write>(&self, f: &mut fmt::Formatter<W>) -> fmt::Result {
        f.write_str(match self {
            Control::Command => "command",
            Control::Request => "request",
            Control::Mask => "mask",
            Control::Mode => "mode",
            Control::ExtendedMode => "extended mode",
            Control::ClearPointer => "clear byte pointer",
            Control::MasterClear => "master clear",
            Control::ClearMasks => "clear masks",
            Control::AllMasks => "all masks",
        })
    }
}

impl fmt::Display for WritePort {
    ghost output = { λ port. Some (write_words port) };

    fn fmt<W: fmt::Write>(&self, f: &mut fmt::Formatter<W>) -> fmt::Result {
        match self {
            WritePort::Field(field, channel) => write!(f, "channel {channel} {field}"),
            WritePort::ListCommand(channel) => write!(f, "channel {channel} list command"),
            WritePort::Control(control, dma) => write!(f, "{dma} {control}"),
        }
    }
}

impl fmt::Display for ReadPort {
    ghost output = { λ port. Some (read_words port) };

    fn fmt<W: fmt::Write>(&self, f: &mut fmt::Formatter<W>) -> fmt::Result {
        match self {
            ReadPort::Field(field, channel) => write!(f, "channel {channel} {field}"),
            ReadPort::ListStatus(channel) => write!(f, "channel {channel} list status"),
            ReadPort::Status(dma) => write!(f, "{dma} status"),
            ReadPort::AllMasks(dma) => write!(f, "{dma} all masks"),
            ReadPort::Irq13 => f.write_str("IRQ13 bits"),
        }
    }
}

// What the values of registers mean.
use crate::channels::Channels;
use registers::list::ListCommand;
use registers::mode::{Mode, Service};
use registers::ports::{Control, Dma, ReadPort, WritePort};
use std::fmt;

/// The channels whose bits are set, from the first of a group on.
fn channels(bits: u8, dma: Dma) -> Channels {
    let first = dma.picked(0);
    Channels { bits, first }
}

/// Which way units go; a cascade channel has none. By number: a byte that is refused is said too, and no enum has type 3.
fn transfer(value: u8, service: Service) -> &'static str {
    match value / 4 % 4 {
        _ if service == Service::Cascade => "",
        0 => ", verify",
        1 => ", device to memory",
        2 => ", memory to device",
        _ => ", transfer type 3",
    }
}

/// By number: a byte that is refused is said too, and no enum has 2 and 3.
fn addressing(value: u8) -> &'static str {
    match value / 4 % 4 {
        0 => "bytes",
        1 => "shifted words",
        _ => "no such addressing",
    }
}

/// Bit 6 says that the end is selected, bit 7 how. Here and below bits are read one by one: each has words of its own, and no struct.
fn selection(value: u8) -> &'static str {
    match (value & 0x40 != 0, value & 0x80 != 0) {
        (true, false) => ", the end by IRQ13",
        (true, true) => ", the end by EOP",
        (false, _) => "",
    }
}

/// One of two texts, by a bit of the value.
fn either(value: u8, mask: u8, set: &'static str, clear: &'static str) -> &'static str {
    if value & mask != 0 { set } else { clear }
}

/// What a value asks of a channel that its two low bits pick.
fn asked_of_channel<W: fmt::Write>(
    f: &mut fmt::Formatter<W>,
    control: Control,
    channel: u8,
    value: u8,
) -> fmt::Result {
    match control {
        Control::Request | Control::Mask => {
            let to = either(value, 0x04, "set", "clear");
            write!(f, ", channel {channel} {to}")
        }
        Control::Mode => {
            let Mode {
                service,
                decrement,
                autoinitialise,
                ..
            } = Mode::from(value);
            let transfer = transfer(value, service);
            let down = if decrement { ", down" } else { "" };
            let again = if autoinitialise {
                ", autoinitialise"
            } else {
                ""
            };
            write!(f, ", channel {channel} {service}{transfer}{down}{again}")
        }
        Control::ExtendedMode => {
            let addressing = addressing(value);
            write!(f, ", channel {channel} {addressing}")
        }
        _ => Ok(()),
    }
}

/// What a value asks of a group.
fn asked_of_group<W: fmt::Write>(
    f: &mut fmt::Formatter<W>,
    control: Control,
    dma: Dma,
    value: u8,
) -> fmt::Result {
    match control {
        Control::Command => {
            let enable = either(value, 0x04, "disabled", "enabled");
            let priority = either(value, 0x10, "rotating", "fixed");
            let lines = either(value, 0x40, "low", "high");
            write!(f, ", {enable}, {priority} priority, lines active {lines}")
        }
        Control::AllMasks => {
            let set = channels(value & 0x0F, dma);
            write!(f, ", set: {set}")
        }
        _ => asked_of_channel(f, control, dma.picked(value), value),
    }
}

/// What a value written to a port asks for; nothing where the value speaks for itself.
pub(crate) fn say_asked<W: fmt::Write>(
    f: &mut fmt::Formatter<W>,
    reached: Option<WritePort>,
    value: u8,
) -> fmt::Result {
    match reached {
        Some(WritePort::Control(control, dma)) => asked_of_group(f, control, dma, value),
        Some(WritePort::ListCommand(_)) => {
            let command = ListCommand::from(value);
            let selection = selection(value);
            write!(f, ", {command}{selection}")
        }
        _ => Ok(()),
    }
}

/// What a list status says.
fn shown_of_list<W: fmt::Write>(f: &mut fmt::Formatter<W>, value: u8) -> fmt::Result {
    let active = either(value, 0x01, "active", "not active");
    let current = either(value, 0x04, ", current loaded", "");
    let reserve = either(value, 0x08, ", reserve loaded", "");
    let irq13 = either(value, 0x20, ", the end by IRQ13", "");
    let ended = either(value, 0x80, ", EOL fetched", "");
    write!(f, ", {active}{current}{reserve}{irq13}{ended}")
}

/// What a value read from a port says; nothing where the value speaks for itself.
pub(crate) fn say_shown<W: fmt::Write>(
    f: &mut fmt::Formatter<W>,
    reached: Option<ReadPort>,
    value: u8,
) -> fmt::Result {
    match reached {
        Some(ReadPort::Status(dma)) => {
            let done = channels(value & 0x0F, dma);
            let active = channels(value >> 4, dma);
            write!(f, ", terminal count: {done}, requests: {active}")
        }
        Some(ReadPort::AllMasks(dma)) => {
            let set = channels(value, dma);
            write!(f, ", set: {set}")
        }
        Some(ReadPort::Irq13) => {
            let set = channels(value, Dma::One);
            write!(f, ", set: {set}")
        }
        Some(ReadPort::ListStatus(_)) => shown_of_list(f, value),
        _ => Ok(()),
    }
}

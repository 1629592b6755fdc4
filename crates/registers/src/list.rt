// The list record of a channel: where its table stands and what is loaded of it.
ghost use Rattle.std.specs.Prelude.{◌≡◌, Some};
ghost use Rattle.registers.specs.Modes.{command_of};
ghost use Rattle.registers.specs.Names.{signal_words, command_words};
ghost use Rattle.registers.specs.Channels.{rest_list, commanded, started, list_status, selected, table_byte};

use std::fmt;

// What the two low bits of a list command ask for.
#[derive(Clone, Copy, PartialEq, Eq, Debug)]
pub enum ListCommand {
    Nothing,
    Start,
    Stop,
    Unknown,
}

// How the end of a list is signalled.
#[derive(Clone, Copy, PartialEq, Eq, Debug, Default)]
pub enum Signal {
    #[default]
    Eop,
    Irq13,
}

// A buffer of a list: where it begins, and its number of transfers less one.
#[derive(Clone, Copy, PartialEq, Eq, Debug)]
pub struct Entry {
    pub address: u32,
    pub count: u16,
}

// Flags, and no one enum of states: `active` and `loaded` go at the end of a list, `ended` and `stopped` stay, so it would need a variant for each mix.
#[derive(Clone, Copy, PartialEq, Eq, Debug, Default)]
pub struct List {
    pub pointer: u32,
    pub next: u32,
    pub active: bool,
    pub loaded: bool,
    pub reserve: Option<Entry>,
    pub ended: bool,
    pub stopped: bool,
    pub entries: u16,
    pub signal: Signal,
    pub irq13: bool,
}

impl List {
    // No list; the table pointer is all that it has.
    pub(crate) fn rest(pointer: u32) -> List
        ensures { result ≡ rest_list pointer }
    {
        List {
            pointer,
            ..List::default()
        }
    }

    // What every accepted command does: it selects the signal, and clears the IRQ13 bit.
    pub(crate) fn commanded(self, value: u8) -> List
        ensures { result ≡ commanded value self }
    {
        List {
            signal: self.signal.selected(value),
            irq13: false,
            ..self
        }
    }

    // Start.
    pub(crate) fn started(self) -> List
        ensures { result ≡ started self }
    {
        List {
            next: self.pointer,
            active: true,
            loaded: false,
            reserve: None,
            ended: false,
            stopped: false,
            entries: 0,
            ..self
        }
    }

    // One byte of the table pointer.
    #[tactic(auto, unfolding(crate::specs::Channels::table_byte))]
    pub(crate) fn table_byte(self, byte: u8) -> u8
        ensures { result ≡ table_byte byte self }
    {
        self.pointer.to_le_bytes()[usize::from(byte % 4)]
    }

    // The list status register.
    pub(crate) fn status(self) -> u8
        ensures { result ≡ list_status self }
    {
        u8::from(self.ended) * 128
            + u8::from(self.signal == Signal::Irq13) * 32
            + u8::from(self.reserve.is_some()) * 8
            + u8::from(self.loaded) * 4
            + u8::from(self.active)
    }
}

impl Signal {
    // With bit 6 of a list command set, bit 7 selects the signal.
    fn selected(self, value: u8) -> Signal
        ensures { result ≡ selected value self }
    {
        match value / 64 {
            1 => Signal::Irq13,
            3 => Signal::Eop,
            _ => self,
        }
    }
}

impl From<u8> for ListCommand {
    ghost from_gives = { λ value command. command ≡ command_of value };

    fn from(value: u8) -> ListCommand {
        match value % 4 {
            0 => ListCommand::Nothing,
            1 => ListCommand::Start,
            2 => ListCommand::Stop,
            _ => ListCommand::Unknown,
        }
    }
}

impl fmt::Display for Signal {
    ghost output = { λ signal. Some (signal_words signal) };

    fn fmt<W: fmt::Write>(&self, f: &mut fmt::Formatter<W>) -> fmt::Result {
        f.write_str(match self {
            Signal::Eop => "EOP",
            Signal::Irq13 => "IRQ13",
        })
    }
}

impl fmt::Display for ListCommand {
    ghost output = { λ command. Some (command_words command) };

    fn fmt<W: fmt::Write>(&self, f: &mut fmt::Formatter<W>) -> fmt::Result {
        f.write_str(match self {
            ListCommand::Nothing => "nothing",
            ListCommand::Start => "Start",
            ListCommand::Stop => "Stop",
            ListCommand::Unknown => "no such command",
        })
    }
}

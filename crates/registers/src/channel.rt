// One channel's registers, and what a driver's bytes make of them.
ghost use Rattle.std.specs.Prelude.{◌≡◌};
ghost use Rattle.registers.specs.Channels.{fresh, rest_span, addressed, low_paged, high_paged, counted, start_refusal, put_byte, byte_of, with_address, with_count, with_low, with_high, with_extended_mode, cleared, with_table_byte, with_list_command, list_refusal, list_begins, unfit, halted, Respans};
ghost use Rattle.registers.specs.Refusals.{shown};

use crate::list::{List, ListCommand};
use crate::mode::{Mode, Service};
use crate::refusal::Refusal;
use bus::place::{Addressing, Place};

// Where a channel stands, and how many transfers follow the next one.
#[derive(Clone, Copy, PartialEq, Eq, Debug)]
pub struct Span {
    pub place: Place,
    pub count: u16,
}

#[derive(Clone, Copy, PartialEq, Eq, Debug)]
pub struct Channel {
    pub base: Span,
    pub current: Span,
    pub extended: bool,
    pub mode: Mode,
    pub addressing: Addressing,
    pub timing: u8,
    pub line: bool,
    pub mask: bool,
    pub request: bool,
    pub terminal: bool,
    pub list: List,
}

// A byte for one half of a 16-bit register.
#[derive(Clone, Copy)]
pub(crate) struct Half {
    pub(crate) high: bool,
    pub(crate) value: u8,
}

impl Half {
    // The register with that half replaced.
    fn put(self, old: u16) -> u16
        ensures { result ≡ put_byte self.high self.value old }
    {
        let mut bytes = old.to_le_bytes();
        bytes[usize::from(self.high)] = self.value;
        u16::from_le_bytes(bytes)
    }
}

// One byte of a 16-bit register.
pub(crate) fn byte_of(high: bool, word: u16) -> u8
    ensures { result ≡ byte_of high word }
{
    word.to_le_bytes()[usize::from(high)]
}

impl Span {
    // A span whose registers are 0.
    fn rest() -> Span
        ensures { result ≡ rest_span }
    {
        Span {
            place: Place {
                address: 0,
                low: 0,
                high: 0,
            },
            count: 0,
        }
    }

    // One byte of the address replaced, and the high page zeroed.
    fn with_address(self, byte: Half) -> Span
        ensures { result ≡ addressed byte.high byte.value self }
    {
        let address = byte.put(self.place.address);
        Span {
            place: Place {
                address,
                high: 0,
                ..self.place
            },
            ..self
        }
    }

    // The low page replaced, and the high page zeroed.
    fn with_low(self, low: u8) -> Span
        ensures { result ≡ low_paged low self }
    {
        Span {
            place: Place {
                low,
                high: 0,
                ..self.place
            },
            ..self
        }
    }

    // The high page replaced.
    fn with_high(self, high: u8) -> Span
        ensures { result ≡ high_paged high self }
    {
        Span {
            place: Place { high, ..self.place },
            ..self
        }
    }

    // One byte of the count replaced.
    fn with_count(self, byte: Half) -> Span
        ensures { result ≡ counted byte.high byte.value self }
    {
        Span {
            count: byte.put(self.count),
            ..self
        }
    }
}

impl Channel {
    // A new channel: masked, and all else at rest.
    pub(crate) fn new(addressing: Addressing) -> Channel
        ensures { result ≡ fresh addressing }
    {
        Channel {
            base: Span::rest(),
            current: Span::rest(),
            extended: false,
            mode: Mode::default(),
            addressing,
            timing: 0,
            line: false,
            mask: true,
            request: false,
            terminal: false,
            list: List::rest(0),
        }
    }

    // Base and current each made anew from what it was.
    fn both<F: Fn(Span) -> Span>(self, f: F) -> Channel
        requires { F.IsAlwaysCallable f }
        ensures { Respans (F.post f) self result }
    {
        Channel {
            base: f(self.base),
            current: f(self.current),
            ..self
        }
    }

    // An address byte, for base and current; it ends extended addressing.
    pub(crate) fn with_address(self, byte: Half) -> Channel
        ensures { result ≡ with_address byte.high byte.value self }
    {
        Channel {
            extended: false,
            ..self.both(|span| span.with_address(byte))
        }
    }

    // A count byte, for base and current.
    pub(crate) fn with_count(self, byte: Half) -> Channel
        ensures { result ≡ with_count byte.high byte.value self }
    {
        self.both(|span| span.with_count(byte))
    }

    // The low page, for base and current; it ends extended addressing.
    pub(crate) fn with_low(self, value: u8) -> Channel
        ensures { result ≡ with_low value self }
    {
        Channel {
            extended: false,
            ..self.both(|span| span.with_low(value))
        }
    }

    // The high page, for base and current; addressing is extended from here on.
    pub(crate) fn with_high(self, value: u8) -> Channel
        ensures { result ≡ with_high value self }
    {
        Channel {
            extended: true,
            ..self.both(|span| span.with_high(value))
        }
    }

    // The byte of the extended mode register: timing, which is stored only, and addressing.
    pub(crate) fn with_extended_mode(self, value: u8) -> Channel
        ensures { result ≡ with_extended_mode value self }
    {
        // Not `TryFrom<u8>`: `Addressing` is a type of `bus`, and its error could not come, as settings 2 and 3 are refused before this.
        let addressing = if value / 4 % 4 == 0 {
            Addressing::Bytes
        } else {
            Addressing::Words
        };
        Channel {
            addressing,
            timing: value / 16 % 4,
            ..self
        }
    }

    // Master clear: line, registers, modes and the table pointer stay.
    pub(crate) fn cleared(self) -> Channel
        ensures { result ≡ cleared self }
    {
        Channel {
            mask: true,
            request: false,
            terminal: false,
            list: List::rest(self.list.pointer),
            ..self
        }
    }

    // One byte of the table pointer.
    #[tactic(auto, unfolding(crate::specs::Channels::with_table_byte))]
    pub(crate) fn with_table_byte(self, byte: u8, value: u8) -> Channel
        ensures { result ≡ with_table_byte byte value self }
    {
        let mut bytes = self.list.pointer.to_le_bytes();
        bytes[usize::from(byte % 4)] = value;
        let pointer = u32::from_le_bytes(bytes);
        Channel {
            list: List {
                pointer,
                ..self.list
            },
            ..self
        }
    }

    // An accepted list command.
    pub(crate) fn with_list_command(self, value: u8) -> Channel
        ensures { result ≡ with_list_command value self }
    {
        let list = self.list.commanded(value);
        match ListCommand::from(value) {
            ListCommand::Start => Channel {
                list: list.started(),
                ..self
            },
            ListCommand::Stop => Channel { list, ..self }.halted(),
            ListCommand::Nothing | ListCommand::Unknown => Channel { list, ..self },
        }
    }

    // Stop.
    fn halted(self) -> Channel
        ensures { result ≡ halted self }
    {
        if !self.list.active {
            return self;
        }
        if self.list.loaded {
            Channel {
                list: List {
                    stopped: true,
                    ..self.list
                },
                ..self
            }
        } else {
            Channel {
                list: List {
                    active: false,
                    ..self.list
                },
                mask: true,
                ..self
            }
        }
    }

    // Why a list command is refused, if it is.
    pub(crate) fn refuses_command(self, value: u8) -> Result<(), Refusal>
        ensures { shown result ≡ list_refusal value self }
    {
        match ListCommand::from(value) {
            ListCommand::Start => self.refuses_start(),
            ListCommand::Unknown => Err(Refusal::NoSuchSetting),
            ListCommand::Nothing | ListCommand::Stop => Ok(()),
        }
    }

    fn refuses_start(self) -> Result<(), Refusal>
        ensures { shown result ≡ start_refusal self }
    {
        if self.list.active {
            return Err(Refusal::ListActive);
        }
        if self.unfit_for_list() {
            return Err(Refusal::UnfitForList);
        }
        let pointer = self.list.pointer;
        if pointer % 4 != 0 || pointer > 0xFFFF_8000 {
            return Err(Refusal::BadTablePointer);
        }
        Ok(())
    }

    // Whether mode or addressing keep the channel from running a list.
    fn unfit_for_list(self) -> bool
        ensures { result ≡ unfit self }
    {
        self.mode.autoinitialise
            || self.mode.service == Service::Cascade
            || self.addressing == Addressing::Words
    }

    // Whether an accepted list command begins a job: Start, or a Stop that ends the list.
    pub(crate) fn begins_job(self, value: u8) -> bool
        ensures { result ≡ list_begins value self }
    {
        match ListCommand::from(value) {
            ListCommand::Start => true,
            ListCommand::Stop => self.list.active && !self.list.loaded,
            ListCommand::Nothing | ListCommand::Unknown => false,
        }
    }
}

// The mode register of a channel, taken apart.
ghost use Rattle.std.specs.Prelude.{◌≡◌, Some};
ghost use Rattle.registers.specs.Modes.{mode_of, service_of, transfer_of};
ghost use Rattle.registers.specs.Names.{service_words};

use std::fmt;

// How a service goes on: while the request lasts, one transfer, to the end of the count, or by lending the bus.
#[derive(Clone, Copy, PartialEq, Eq, Debug, Default)]
pub enum Service {
    #[default]
    Demand,
    Single,
    Block,
    Cascade,
}

// Which way a unit goes; a write goes from the device to memory.
#[derive(Clone, Copy, PartialEq, Eq, Debug, Default)]
pub enum Transfer {
    #[default]
    Verify,
    Write,
    Read,
}

// A new channel has the default.
#[derive(Clone, Copy, PartialEq, Eq, Debug, Default)]
pub struct Mode {
    pub service: Service,
    pub decrement: bool,
    pub autoinitialise: bool,
    pub transfer: Transfer,
}

// The mode that a byte written to the mode register asks for.
impl From<u8> for Mode {
    ghost from_gives = { λ byte mode. mode ≡ mode_of byte };

    fn from(byte: u8) -> Mode {
        Mode {
            service: Service::from(byte / 64),
            decrement: byte / 32 % 2 == 1,
            autoinitialise: byte / 16 % 2 == 1,
            transfer: Transfer::from(byte / 4 % 4),
        }
    }
}

impl From<u8> for Service {
    ghost from_gives = { λ code service. service ≡ service_of code };

    fn from(code: u8) -> Service {
        match code {
            0 => Service::Demand,
            1 => Service::Single,
            2 => Service::Block,
            _ => Service::Cascade,
        }
    }
}

impl From<u8> for Transfer {
    ghost from_gives = { λ code transfer. transfer ≡ transfer_of code };

    fn from(code: u8) -> Transfer {
        match code {
            1 => Transfer::Write,
            2 => Transfer::Read,
            _ => Transfer::Verify,
        }
    }
}

impl fmt::Display for Service {
    ghost output = { λ service. Some (service_words service) };

    fn fmt<W: fmt::Write>(&self, f: &mut fmt::Formatter<W>) -> fmt::Result {
        f.write_str(match self {
            Service::Demand => "demand",
            Service::Single => "single",
            Service::Block => "block",
            Service::Cascade => "cascade",
        })
    }
}

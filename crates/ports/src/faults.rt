// How a port bank refuses.
ghost use Rattle.std.specs.Prelude.{◌≡◌, Some};
ghost use Rattle.ports.specs.Faults.{port_number, port_words, port_fault_of};

use std::error::Error;
use std::fmt;
use tape::TapeFault;

/// Why a port bank refuses. Each refusal has its number.
#[derive(Clone, Copy, PartialEq, Eq, Debug)]
pub enum PortFault {
    NothingWaits = 31,
    NoPlace = 32,
    NoSuchChannel = 33,
}

impl PortFault {
    /// The refusal's number.
    // An enum's own and no trait's: the cast needs the enum, so a trait would have the same body seven times.
    pub fn number(self) -> u8
        ensures { result ≡ port_number self }
    {
        self as u8
    }
}

impl fmt::Display for PortFault {
    ghost output = { λ fault. Some (port_words fault) };

    fn fmt<W: fmt::Write>(&self, f: &mut fmt::Formatter<W>) -> fmt::Result {
        f.write_str(match self {
            PortFault::NothingWaits => "nothing waits at the device",
            PortFault::NoPlace => "the device has no free place",
            PortFault::NoSuchChannel => "the bank has no such channel",
        })
    }
}

impl Error for PortFault {}

impl From<TapeFault> for PortFault {
    ghost from_gives = { λ fault r. r ≡ port_fault_of fault };

    /// Nothing waits on an empty tape, and a full one has no free place.
    fn from(fault: TapeFault) -> PortFault {
        match fault {
            TapeFault::Full => PortFault::NoPlace,
            TapeFault::Empty => PortFault::NothingWaits,
        }
    }
}

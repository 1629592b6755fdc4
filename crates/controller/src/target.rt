// One unit of a transfer: the channel that it belongs to, and where it stands in memory.
ghost use Rattle.std.specs.Prelude.{◌≡◌};
ghost use Rattle.controller.specs.Carrying.{above};

use crate::fault::{Cause, Fault};
use bus::place::Addressing;

#[derive(Clone, Copy, PartialEq, Eq, Debug)]
pub(crate) struct Target {
    pub(crate) channel: u8,
    pub(crate) addressing: Addressing,
    pub(crate) address: u32,
}

impl Target {
    // Where a word's high byte stands.
    pub(crate) fn above(self) -> u32
        ensures { result ≡ above self.address }
    {
        self.address.wrapping_add(1)
    }

    // A fault of the unit's channel, at one of its bytes.
    pub(crate) fn fault(self, cause: Cause, at: u32) -> Fault
        ensures { result ≡ record { cause = cause; channel = self.channel; address = at } }
    {
        Fault {
            cause,
            channel: self.channel,
            address: at,
        }
    }
}

// What a port bank is.
ghost use Rattle.std.specs.Prelude.{◌≡◌, ℕ, List};
ghost use Rattle.ports.specs.Units.{is_channel, channel_of, look_of, taken, give_of, added, used};

use crate::faults::PortFault;

/// A port bank: each of the channels 0, 1, 2, 3, 5, 6 and 7 has waiting units, kept units and free places.
pub trait PortBank {
    /// The units that wait at each channel, the first first.
    ghost waiting: { Self → ℕ → List ℕ };

    /// The units that each channel keeps, the first given first.
    ghost kept: { Self → ℕ → List ℕ };

    /// The free places of each channel.
    ghost free: { Self → ℕ → ℕ };

    /// Answers the first waiting unit, and changes nothing.
    fn look(&self, channel: u8) -> Result<u16, PortFault>
        ensures { result ≡ look_of channel (waiting self.now) };

    /// Answers the first waiting unit and removes it; refused, it changes nothing.
    fn take(&mut self, channel: u8) -> Result<u16, PortFault>
        ensures answer { result ≡ look_of channel (waiting self.old) }
        ensures waits { waiting self.new ≡ taken channel (waiting self.old) }
        ensures keeps { kept self.new ≡ kept self.old }
        ensures frees { free self.new ≡ free self.old };

    /// Adds a kept unit at the end and uses one free place; refused, it changes nothing.
    fn give(&mut self, channel: u8, unit: u16) -> Result<(), PortFault>
        ensures answer { result ≡ give_of channel (free self.old) }
        ensures waits { waiting self.new ≡ waiting self.old }
        ensures keeps { kept self.new ≡ added channel unit (free self.old) (kept self.old) }
        ensures frees { free self.new ≡ used channel (free self.old) };
}

/// Whether a bank has such a channel: 0 to 7 without 4.
pub fn is_channel(channel: u8) -> bool
    ensures { result ≡ is_channel channel }
{
    channel < 8 && channel != 4
}

/// Refused if a bank has no such channel.
pub fn check_channel(channel: u8) -> Result<(), PortFault>
    ensures { result ≡ channel_of channel }
{
    if is_channel(channel) {
        Ok(())
    } else {
        Err(PortFault::NoSuchChannel)
    }
}

/// What giving answers in a bank without free places: always a refusal.
pub fn no_place(channel: u8) -> Result<(), PortFault>
    ensures { result ≡ give_of channel (λ _. 0) }
{
    check_channel(channel)?;
    Err(PortFault::NoPlace)
}

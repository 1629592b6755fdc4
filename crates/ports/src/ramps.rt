// A bank whose units count up.
ghost use Rattle.std.specs.Prelude.{◌≡◌, []};
ghost use Rattle.tape.specs.Lines.{first_or, rest_of};
ghost use Rattle.ports.specs.Faults.{port_refusal};
ghost use Rattle.ports.specs.Ramps.{ramp_units, ramps_from, ramp_waiting, counting as counting_up};

use crate::bank::{PortBank, check_channel, no_place};
use crate::faults::PortFault;

/// So many units that count up modulo 65536 from the next one on.
#[derive(Clone, Copy, PartialEq, Eq, Debug)]
pub struct Ramp {
    pub next: u16,
    pub left: u32,
}

#[tactic(auto, using(crate::proofs::Ramped::ramp_none, crate::proofs::Ramped::ramp_some))]
impl Ramp {
    /// The next unit.
    pub(crate) fn look(&self) -> Result<u16, PortFault>
        ensures { result ≡ first_or (port_refusal 31) (ramp_units self.now) }
    {
        if self.left == 0 {
            return Err(PortFault::NothingWaits);
        }
        Ok(self.next)
    }

    /// The next unit, which is removed.
    pub(crate) fn take(&mut self) -> Result<u16, PortFault>
        ensures answer { result ≡ first_or (port_refusal 31) (ramp_units self.old) }
        ensures waits { ramp_units self.new ≡ rest_of (ramp_units self.old) }
    {
        let unit = self.look()?;
        self.next = unit.wrapping_add(1);
        self.left -= 1;
        Ok(unit)
    }
}

/// A ramp at each channel; there is no free place.
#[derive(Drop)]
pub struct RampBank {
    ramps: [Ramp; 8],
}

impl RampBank {
    /// A ramp for each channel. What stands for channel 4 is not used.
    pub fn new(ramps: [Ramp; 8]) -> RampBank
        ensures { ramp_waiting result ≡ ramps_from ramps }
    {
        RampBank { ramps }
    }

    /// So many units on each channel, from the channel's number on.
    pub fn counting(count: u32) -> RampBank
        ensures { ramp_waiting result ≡ counting_up count }
    {
        RampBank::new([0, 1, 2, 3, 4, 5, 6, 7].map(|next| Ramp { next, left: count }))
    }
}

impl PortBank for RampBank {
    ghost waiting = { ramp_waiting };

    ghost kept = { λ _ _. [] };

    ghost free = { λ _ _. 0 };

    fn look(&self, channel: u8) -> Result<u16, PortFault> {
        check_channel(channel)?;
        self.ramps[usize::from(channel)].look()
    }

    #[tactic(auto, using(crate::proofs::Ramped::took))]
    fn take(&mut self, channel: u8) -> Result<u16, PortFault> {
        check_channel(channel)?;
        self.ramps[usize::from(channel)].take()
    }

    fn give(&mut self, channel: u8, _unit: u16) -> Result<(), PortFault> {
        no_place(channel)
    }
}

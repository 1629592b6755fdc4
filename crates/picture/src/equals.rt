// A bank of one's own: equal units wait on one channel.
//
// A bank says by `waiting`, `kept` and `free` what each channel has. The constructor's contract says what is in the bank,
// else an empty one would meet it.
ghost use Rattle.std.specs.Prelude.{◌≡◌, []};
ghost use Rattle.picture.specs.Equals.{equal_units, equal_waiting};

use ports::{PortBank, PortFault, check_channel, no_place};

/// A number of equal units waits on one channel; there is no free place.
#[derive(Drop)]
pub struct EqualBank {
    channel: u8,
    unit: u16,
    left: u32,
}

impl EqualBank {
    pub fn new(channel: u8, unit: u16, count: u32) -> EqualBank
        ensures { equal_waiting result ≡ equal_units channel unit count }
    {
        EqualBank {
            channel,
            unit,
            left: count,
        }
    }
}

#[tactic(auto, using(crate::proofs::Repeated::replicate_some))]
impl PortBank for EqualBank {
    ghost waiting = { equal_waiting };

    ghost kept = { λ _ _. [] };

    ghost free = { λ _ _. 0 };

    // 33 comes before 31.
    fn look(&self, channel: u8) -> Result<u16, PortFault> {
        check_channel(channel)?;
        if channel != self.channel || self.left == 0 {
            return Err(PortFault::NothingWaits);
        }
        Ok(self.unit)
    }

    fn take(&mut self, channel: u8) -> Result<u16, PortFault> {
        let unit = self.look(channel)?;
        self.left -= 1;
        Ok(unit)
    }

    fn give(&mut self, channel: u8, _unit: u16) -> Result<(), PortFault> {
        no_place(channel)
    }
}

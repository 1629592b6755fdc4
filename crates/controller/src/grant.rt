// Grants of the bus to a bus master on a cascade channel.
ghost use Rattle.std.specs.Prelude.{◌≡◌, IfOk, IfErr, Some};
ghost use Rattle.controller.specs.declared.grant.BusRefusal.TheVariants.{Memory};
ghost use Rattle.controller.specs.Outside.{Outside, with_memory};
ghost use Rattle.controller.specs.Steps.{Becomes, state_of, with_bus};
ghost use Rattle.controller.specs.Grants.{bus_number, bus_words, shown_bus, shown_release, byte_in, take_number, took_bus, out_to, holds, cycle_number, cycle_value, after_cycle, release_number, released};

use crate::controller::{Bus, Controller};
use memory::{Memory, MemoryFault};
use std::error::Error;
use std::fmt;

// The bus, lent to the master on one channel. It is spent by `release`, and by nothing else.
pub struct Grant {
    channel: u8,
}

// A cycle of a bus master: one byte.
#[derive(Clone, Copy, PartialEq, Eq, Debug)]
pub enum Cycle {
    Read { address: u32 },
    Write { address: u32, byte: u8 },
}

#[derive(Clone, Copy, PartialEq, Eq, Debug)]
pub enum BusRefusal {
    NotOffered,
    NotGranted,
    Memory(MemoryFault),
}

impl From<MemoryFault> for BusRefusal {
    ghost from_gives = { λ refusal r. r ≡ Memory refusal };

    fn from(refusal: MemoryFault) -> BusRefusal {
        BusRefusal::Memory(refusal)
    }
}

impl BusRefusal {
    pub fn number(self) -> u8
        ensures { result ≡ bus_number self }
    {
        match self {
            BusRefusal::NotOffered => 11,
            BusRefusal::NotGranted => 12,
            BusRefusal::Memory(fault) => fault.number(),
        }
    }
}

impl fmt::Display for BusRefusal {
    ghost output = { λ refusal. Some (bus_words refusal) };

    fn fmt<W: fmt::Write>(&self, f: &mut fmt::Formatter<W>) -> fmt::Result {
        match self {
            BusRefusal::NotOffered => f.write_str("the bus is not out, or is taken already"),
            BusRefusal::NotGranted => f.write_str("the bus is not granted"),
            BusRefusal::Memory(fault) => write!(f, "{fault}"),
        }
    }
}

impl Error for BusRefusal {}

impl Grant {
    // The channel that the bus is lent on.
    pub fn channel(&self) -> u8
        ensures { result ≡ self.now.channel }
    {
        self.channel
    }
}

impl Controller {
    // Takes the bus that is out; the grant is for the channel that it is out to.
    pub fn take(&mut self) -> Result<Grant, BusRefusal>
        ensures state { Becomes self.old self.new (with_bus (took_bus self.old.bus)) }
        ensures answer { shown_bus result ≡ take_number self.old.bus }
        ensures grant { IfOk result (λ g. g.channel ≡ out_to self.old.bus) }
    {
        match self.bus {
            Bus::Out(channel) => {
                self.bus = Bus::Taken(channel);
                Ok(Grant { channel })
            }
            _ => Err(BusRefusal::NotOffered),
        }
    }

    // Whether a grant holds.
    fn holds(&self, channel: u8) -> bool
        ensures { result ≡ holds self.now.bus channel }
    {
        self.bus == Bus::Taken(channel)
    }

    // One byte read or written under a grant.
    // `lenders` is one equation of a ghost member of the caller's memory, which a definition would only rename.
    pub fn cycle<M: Memory>(
        &self,
        grant: &Grant,
        memory: &mut M,
        cycle: Cycle,
    ) -> Result<u8, BusRefusal>
        ensures state { (o : Outside) → state_of self.now (with_memory M.Memory memory.new o) ≡ after_cycle grant.now.channel cycle (state_of self.now (with_memory M.Memory memory.old o)) }
        ensures answer { (o : Outside) → shown_bus result ≡ cycle_number (state_of self.now (with_memory M.Memory memory.old o)) grant.now.channel cycle }
        ensures value { (o : Outside) → byte_in result ≡ cycle_value (state_of self.now (with_memory M.Memory memory.old o)) grant.now.channel cycle }
        ensures lenders { M.fixed memory.new ≡ M.fixed memory.old }
    {
        if !self.holds(grant.channel) {
            return Err(BusRefusal::NotGranted);
        }
        match cycle {
            Cycle::Read { address } => Ok(memory.read(address)?),
            Cycle::Write { address, byte } => {
                memory.write(address, byte)?;
                Ok(byte)
            }
        }
    }

    // Gives the bus back, which ends the service; a grant that does not hold is handed back.
    pub fn release(&mut self, grant: Grant) -> Result<(), Grant>
        ensures state { Becomes self.old self.new (released grant.channel) }
        ensures answer { (o : Outside) → shown_release result ≡ release_number (state_of self.old o) grant.channel }
        ensures back { IfErr result (λ g. g ≡ grant) }
    {
        if !self.holds(grant.channel) {
            return Err(grant);
        }
        let Grant { channel } = grant;
        self.bus = Bus::Home;
        self.registers.end_service(channel);
        Ok(())
    }
}

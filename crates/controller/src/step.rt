// A step: one thing done.
ghost use Rattle.std.specs.Prelude.{◌≡◌};
ghost use Rattle.controller.specs.Outside.{Outside, outside_of, with_memory, Does};
ghost use Rattle.controller.specs.Steps.{Becomes, state_of, with_registers, choice_of, begun, transfer_of, fetch_step, service_of, settled, serve, ahead_of, choose_of, ongoing, step_of};
ghost use Rattle.controller.specs.Asking.{first_fetching};

use crate::asking::{asks, first_fetching, goes_on};
use crate::carrying::carry;
use crate::controller::{Bus, Controller};
use crate::event::Event;
use crate::fault::Fault;
use crate::fetching::{fetch, fill};
use crate::passing::{address, fail, pass};
use crate::target::Target;
use arbiter::groups::{Choice, Side, winner};
use arbiter::slots::mask;
use memory::Memory;
use ports::PortBank;
use registers::file::Registers;
use registers::group::Group;
use registers::mode::Service;

// A group and the slots of it that ask, as the arbiter takes them.
fn side(group: &Group, asking: u8) -> Side
    ensures { result ≡ record { asking = asking; rotating = group.now.rotating; last = group.now.last } }
{
    Side {
        asking,
        rotating: group.rotating,
        last: group.last,
    }
}

// The choice between all channels that ask.
fn choose(registers: &Registers) -> Option<Choice>
    ensures { result ≡ choice_of registers.now }
{
    // Four calls, as `mask` takes them.
    let asks = |c| asks(registers, c);
    let first = mask(asks(0), asks(1), asks(2), asks(3));
    let second = mask(false, asks(5), asks(6), asks(7));
    winner(
        side(&registers.first, first),
        side(&registers.second, second),
    )
}

// Memory and bank are two parameters: a caller lends them apart, and a fetch and a cycle take the memory alone.
// `lenders` is a clause where the memory may be written: it is the caller's, so no type of this crate can hold the fact.
// Channel and memory travel together too: the one is a number, the other lent, and no rule joins them.
impl Controller {
    // A transfer of a channel's unit; a fault leaves everything.
    fn transfer<M: Memory, B: PortBank>(
        &mut self,
        c: u8,
        memory: &mut M,
        bank: &mut B,
    ) -> Result<Event, Fault>
        ensures does { Does (transfer_of (state_of self.old (outside_of M.Memory B.PortBank memory.old bank.old)) c) (state_of self.new (outside_of M.Memory B.PortBank memory.new bank.new)) result }
        ensures lenders { M.fixed memory.new ≡ M.fixed memory.old }
    {
        let channel = self.registers.channel(c);
        let target = Target {
            channel: c,
            addressing: channel.addressing,
            address: address(channel),
        };
        let unit = carry(channel.mode.transfer, memory, bank, target)?;
        let passed = pass(channel);
        self.registers.put(c, passed.channel);
        self.registers.service = if passed.over { None } else { Some(c) };
        Ok(Event::Moved {
            channel: c,
            address: target.address,
            unit,
            signal: passed.signal,
        })
    }

    // A fetch of a channel's next entry; a fault leaves everything.
    fn fetch_entry<M: Memory>(&mut self, c: u8, memory: &M) -> Result<Event, Fault>
        ensures { (o : Outside) → Does (fetch_step (state_of self.old (with_memory M.Memory memory.now o)) c) (state_of self.new (with_memory M.Memory memory.now o)) result }
    {
        let channel = self.registers.channel(c);
        let fetched = fetch(memory, c, channel.list)?;
        self.registers.put(c, fill(fetched, channel));
        Ok(Event::Fetched {
            channel: c,
            address: channel.list.next,
        })
    }

    // What a channel in service does: it lends the bus, fetches, or transfers.
    fn work<M: Memory, B: PortBank>(
        &mut self,
        c: u8,
        memory: &mut M,
        bank: &mut B,
    ) -> Result<Event, Fault>
        ensures does { Does (service_of (state_of self.old (outside_of M.Memory B.PortBank memory.old bank.old)) c) (state_of self.new (outside_of M.Memory B.PortBank memory.new bank.new)) result }
        ensures lenders { M.fixed memory.new ≡ M.fixed memory.old }
    {
        let channel = self.registers.channel(c);
        if channel.mode.service == Service::Cascade {
            self.bus = Bus::Out(c);
            return Ok(Event::Lent { channel: c });
        }
        if channel.list.active && !channel.list.loaded {
            return self.fetch_entry(c, memory);
        }
        self.transfer(c, memory, bank)
    }

    // A fault masks its channel, clears its request bit and ends the service.
    fn settle(&mut self, c: u8, outcome: Result<Event, Fault>) -> Result<Event, Fault>
        ensures { (o : Outside) → Does (settled c (state_of self.old o, outcome)) (state_of self.new o) result }
    {
        if outcome.is_err() {
            let channel = self.registers.channel(c);
            self.registers.put(c, fail(channel));
            self.registers.service = None;
        }
        outcome
    }

    // A channel in service.
    fn serve<M: Memory, B: PortBank>(
        &mut self,
        c: u8,
        memory: &mut M,
        bank: &mut B,
    ) -> Result<Event, Fault>
        ensures does { Does (serve (state_of self.old (outside_of M.Memory B.PortBank memory.old bank.old)) c) (state_of self.new (outside_of M.Memory B.PortBank memory.new bank.new)) result }
        ensures lenders { M.fixed memory.new ≡ M.fixed memory.old }
    {
        let outcome = self.work(c, memory, bank);
        self.settle(c, outcome)
    }

    // Nobody asks: the lowest channel that can fetches ahead.
    fn fetch_ahead<M: Memory>(&mut self, memory: &M) -> Result<Event, Fault>
        ensures { (o : Outside) → Does (ahead_of (state_of self.old (with_memory M.Memory memory.now o)) (first_fetching self.old.registers)) (state_of self.new (with_memory M.Memory memory.now o)) result }
    {
        match first_fetching(&self.registers) {
            None => Ok(Event::Idle),
            Some(c) => {
                let outcome = self.fetch_entry(c, memory);
                self.settle(c, outcome)
            }
        }
    }

    // A choice begins a service.
    fn begin(&mut self, choice: Choice)
        ensures { Becomes self.old self.new (with_registers (begun choice self.old.registers)) }
    {
        if let Some(slot) = choice.first {
            self.registers.first.last = slot;
        }
        self.registers.second.last = choice.second;
        self.registers.service = Some(choice.channel);
    }

    // A channel is chosen, or nobody asks.
    fn choose_anew<M: Memory, B: PortBank>(
        &mut self,
        memory: &mut M,
        bank: &mut B,
    ) -> Result<Event, Fault>
        ensures does { Does (choose_of (state_of self.old (outside_of M.Memory B.PortBank memory.old bank.old)) (choice_of self.old.registers)) (state_of self.new (outside_of M.Memory B.PortBank memory.new bank.new)) result }
        ensures lenders { M.fixed memory.new ≡ M.fixed memory.old }
    {
        match choose(&self.registers) {
            Some(choice) => {
                self.begin(choice);
                self.serve(choice.channel, memory, bank)
            }
            None => {
                self.registers.service = None;
                self.fetch_ahead(memory)
            }
        }
    }

    // The channel whose service goes on.
    fn ongoing(&self) -> Option<u8>
        ensures { result ≡ ongoing self.now.registers self.now.registers.service }
    {
        self.registers
            .service
            .filter(|c| goes_on(&self.registers, *c))
    }

    // Does one thing, and answers it.
    pub fn step<M: Memory, B: PortBank>(
        &mut self,
        memory: &mut M,
        bank: &mut B,
    ) -> Result<Event, Fault>
        ensures does { Does (step_of (state_of self.old (outside_of M.Memory B.PortBank memory.old bank.old))) (state_of self.new (outside_of M.Memory B.PortBank memory.new bank.new)) result }
        ensures lenders { M.fixed memory.new ≡ M.fixed memory.old }
    {
        if self.bus != Bus::Home {
            return Ok(Event::Away);
        }
        match self.ongoing() {
            Some(c) => self.serve(c, memory, bank),
            None => self.choose_anew(memory, bank),
        }
    }
}

// A controller in the middle of a run, with the grant that it has given.
ghost use Rattle.std.specs.Prelude.{◌≡◌};
ghost use Rattle.controller.specs.Outside.{Outside, outside_of, with_memory, Does};
ghost use Rattle.controller.specs.Steps.{state_of, fresh};
ghost use Rattle.runs.specs.declared.calls.Call.TheVariants as call;
ghost use Rattle.runs.specs.declared.calls.Answer.TheVariants as answer;
ghost use Rattle.runs.specs.Told.{told_of};
ghost use Rattle.runs.specs.Calls.{performed, Performs, Holding, Holding-prop};

use crate::calls::{Answer, Call};
use crate::session::{Session, give_back};
use controller::controller::Controller;
use controller::grant::{BusRefusal, Cycle, Grant};
use memory::Memory;
use ports::PortBank;

// A controller and the grant that is held, which fit at each moment of a run.
pub(crate) struct Holder {
    pub(crate) controller: Controller,
    pub(crate) grant: Option<Grant>,
    pub(crate) ghost held: { Holding grant controller.bus } by { Holding-prop grant controller.bus },
}

// `lenders` is one equation of a ghost member of the caller's memory, which a definition would only rename.
impl Holder {
    // A new controller, whose bus nobody holds.
    pub(crate) fn new() -> Holder
        ensures { (o : Outside) → state_of result.controller o ≡ fresh o }
    {
        Holder {
            controller: Controller::new(),
            grant: None,
        }
    }

    // Takes the bus, and holds the grant.
    fn take(&mut self) -> Result<u8, BusRefusal>
        ensures { Performs self.old.controller call.Take self.new.controller (answer.Take result) }
    {
        let grant = self.controller.take()?;
        let channel = grant.channel();
        // A grant cannot be dropped, so the place that it goes to is seen to be empty.
        match self.grant.replace(grant) {
            None => Ok(channel),
            Some(_) => unreachable(),
        }
    }

    // A cycle under the grant that is held; without one there is no cycle.
    fn cycle<M: Memory>(&self, memory: &mut M, cycle: Cycle) -> Result<u8, BusRefusal>
        ensures does { (o : Outside) → Does (performed (state_of self.now.controller (with_memory M.Memory memory.old o)) (call.Cycle cycle)) (state_of self.now.controller (with_memory M.Memory memory.new o)) (told_of (answer.Cycle result)) }
        ensures lenders { M.fixed memory.new ≡ M.fixed memory.old }
    {
        match &self.grant {
            None => Err(BusRefusal::NotGranted),
            Some(grant) => self.controller.cycle(grant, memory, cycle),
        }
    }

    // Releases the grant that is held.
    fn release(&mut self) -> Result<(), BusRefusal>
        ensures { Performs self.old.controller call.Release self.new.controller (answer.Release result) }
    {
        give_back(&mut self.controller, self.grant.take())
    }

    // One call, through the public method that it names.
    pub(crate) fn perform<M: Memory, B: PortBank>(
        &mut self,
        memory: &mut M,
        bank: &mut B,
        call: Call,
    ) -> Answer
        ensures does { Does (performed (state_of self.old.controller (outside_of M.Memory B.PortBank memory.old bank.old)) call) (state_of self.new.controller (outside_of M.Memory B.PortBank memory.new bank.new)) (told_of result) }
        ensures lenders { M.fixed memory.new ≡ M.fixed memory.old }
    {
        match call {
            Call::Write { port, value } => Answer::Write(self.controller.write(port, value)),
            Call::Read { port } => Answer::Read(self.controller.read(port)),
            Call::Lines { bits } => Answer::Lines(self.controller.lines(bits)),
            Call::Step => Answer::Step(self.controller.step(memory, bank)),
            Call::Inspect { channel } => Answer::Inspect(self.controller.inspect(channel)),
            Call::Take => Answer::Take(self.take()),
            Call::Cycle { cycle } => Answer::Cycle(self.cycle(memory, cycle)),
            Call::Release => Answer::Release(self.release()),
        }
    }

    // What a run leaves, for its caller to take apart.
    pub(crate) fn into_session(self) -> Session
        ensures controller { result.controller ≡ self.controller }
        ensures holding { Holding result.grant result.controller.bus }
    {
        let Holder { controller, grant } = self;
        Session { controller, grant }
    }
}

// Steps, and the notices that they give.
ghost use Rattle.std.specs.Prelude.{◌≡◌, ◌<◌, ◌++◌, length};
ghost use Rattle.std.specs.Option.{option_to_list};
ghost use Rattle.tape.specs.Tapes.{cells_of, contents, room};
ghost use Rattle.controller.specs.Outside.{outside_of, Does};
ghost use Rattle.script.specs.Commands as order;
ghost use Rattle.runner.specs.Notices.{notice_of};
ghost use Rattle.runner.specs.Answers.{told_of};
ghost use Rattle.runner.specs.Plays.{run_at, step_once, played};

use crate::answer::Answer;
use crate::desk::Desk;
use crate::notice::{is_transfer, notice_of};
use controller::event::Event;
use controller::fault::Fault;
use memory::Memory;
use ports::PortBank;

// Memory and bank are the caller's, lent apart; `stays` is one equation of a ghost member, which a definition would only rename.
impl Desk<'_> {
    /// What a step gives notice of comes last.
    fn note(&mut self, outcome: Result<Event, Fault>)
        requires { 0 < room self.old.notices }
        ensures controller { self.new.controller ≡ self.old.controller }
        ensures notices { contents self.new.notices ≡ contents self.old.notices ++ option_to_list (notice_of outcome) }
        ensures cells { length (cells_of self.new.notices) ≡ length (cells_of self.old.notices) }
    {
        if let Some(notice) = notice_of(outcome) {
            let _ = self.notices.push(notice);
        }
    }

    /// One step, of which a fault or a signal becomes a notice; whether it was a transfer.
    fn step_once<M: Memory, B: PortBank>(&mut self, memory: &mut M, bank: &mut B) -> bool
        requires { 0 < room self.old.notices }
        ensures does { Does (step_once (run_at self.old (outside_of M.Memory B.PortBank memory.old bank.old))) (run_at self.new (outside_of M.Memory B.PortBank memory.new bank.new)) result }
        ensures stays { M.fixed memory.new ≡ M.fixed memory.old }
    {
        let outcome = self.controller.step(memory, bank);
        self.note(outcome);
        is_transfer(outcome)
    }

    /// STEP: so many steps, fewer only if the tape of notices is full before one.
    pub(crate) fn steps<M: Memory, B: PortBank>(
        &mut self,
        count: u16,
        memory: &mut M,
        bank: &mut B,
    ) -> Answer
        ensures does { Does (played (order.Step count) (run_at self.old (outside_of M.Memory B.PortBank memory.old bank.old))) (run_at self.new (outside_of M.Memory B.PortBank memory.new bank.new)) (told_of result) }
        ensures stays { M.fixed memory.new ≡ M.fixed memory.old }
    {
        let mut transfers = 0;
        for steps in 0..count {
            if self.is_full() {
                return Answer::Step { steps, transfers };
            }
            transfers += u16::from(self.step_once(memory, bank));
        }
        Answer::Step {
            steps: count,
            transfers,
        }
    }
}

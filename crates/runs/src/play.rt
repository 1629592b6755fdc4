// A whole run: one controller, a list of calls, and the law that the run keeps.
ghost use Rattle.std.specs.Prelude.{◌≡◌, min, length, take, drop, map};
ghost use Rattle.controller.specs.Outside.{outside_of};
ghost use Rattle.controller.specs.Steps.{state_of, fresh};
ghost use Rattle.runs.specs.Told.{told_of};
ghost use Rattle.runs.specs.Calls.{run, ended, answers_of, Holding};
ghost use Rattle.runs.specs.Law.{Law};

use crate::calls::{Answer, Call};
use crate::holder::Holder;
use crate::session::Session;
use memory::Memory;
use ports::PortBank;

// How many calls were performed, and the controller with the grant that is still held, if one is.
pub struct Played {
    pub count: usize,
    pub session: Session,
}

// Makes a controller and performs the calls one after another, as many as there is room for answers.
// `lenders` is one equation of a ghost member of the caller's memory, which a definition would only rename.
pub fn play<M: Memory, B: PortBank>(
    memory: &mut M,
    bank: &mut B,
    calls: &[Call],
    answers: &mut [Answer],
) -> Played
    ensures count { result.count ≡ min (length calls.now) (length answers.old) }
    ensures answered { map told_of (take result.count answers.new) ≡ answers_of (run (fresh (outside_of M.Memory B.PortBank memory.old bank.old)) (take result.count calls.now)) }
    ensures rest { drop result.count answers.new ≡ drop result.count answers.old }
    ensures state { state_of result.session.controller (outside_of M.Memory B.PortBank memory.new bank.new) ≡ ended (fresh (outside_of M.Memory B.PortBank memory.old bank.old)) (take result.count calls.now) }
    ensures law { Law (fresh (outside_of M.Memory B.PortBank memory.old bank.old)) (run (fresh (outside_of M.Memory B.PortBank memory.old bank.old)) (take result.count calls.now)) (state_of result.session.controller (outside_of M.Memory B.PortBank memory.new bank.new)) }
    ensures holding { Holding result.session.grant result.session.controller.bus }
    ensures lenders { M.fixed memory.new ≡ M.fixed memory.old }
{
    let mut holder = Holder::new();
    let count = calls.len().min(answers.len());
    // The answers are indexed: after a zip over `answers.iter_mut()` a proof knows none of them (tried).
    for (i, call) in calls[..count].iter().enumerate() {
        answers[i] = holder.perform(memory, bank, *call);
    }
    Played {
        count,
        session: holder.into_session(),
    }
}

// A whole script, over any memory and any bank.
ghost use Rattle.std.specs.Prelude.{◌≡◌, length};
ghost use Rattle.std.specs.Result.{result_err};
ghost use Rattle.controller.specs.Outside.{outside_of};
ghost use Rattle.script.specs.Faults.{refusal_of};
ghost use Rattle.runner.specs.Plays.{run_at, opened};
ghost use Rattle.runner.specs.Runs.{run_of, Answered};

use crate::desk::Desk;
use crate::notice::Notice;
use memory::Memory;
use ports::PortBank;
use script::fault::ScriptFault;
use script::progress::Progress;
use script::reader::Script;
use tape::Blank;

/// How many notices can wait.
pub const NOTICES: usize = 64;

// Memory and bank are the caller's, lent apart; `stays` is one equation of a ghost member, which a definition would only rename.
impl Desk<'_> {
    /// Plays a script up to its end or the first command that is refused, and counts the bytes of its answers in `done`.
    // `done` is the caller's, since the sum outlives a refusal.
    fn play_script<M: Memory, B: PortBank>(
        &mut self,
        script: &[u8],
        memory: &mut M,
        bank: &mut B,
        output: &mut [u8],
        done: &mut usize,
    ) -> Result<(), ScriptFault>
        ensures answers { Answered (run_of script.now (length output.old) (run_at self.old (outside_of M.Memory B.PortBank memory.old bank.old))) output.old (refusal_of (result_err result)) done.new output.new }
        ensures world { outside_of M.Memory B.PortBank memory.new bank.new ≡ (run_of script.now (length output.old) (run_at self.old (outside_of M.Memory B.PortBank memory.old bank.old))).run.state.world }
        ensures stays { M.fixed memory.new ≡ M.fixed memory.old }
    {
        *done = 0;
        for command in Script::new(script) {
            *done += self.answer(command?, memory, bank, &mut output[*done..])?;
        }
        Ok(())
    }
}

/// Runs a script on a new controller, up to its end or the first command that is refused.
pub fn run<M: Memory, B: PortBank>(
    script: &[u8],
    memory: &mut M,
    bank: &mut B,
    output: &mut [u8],
) -> Progress
    ensures answers { Answered (run_of script.now (length output.old) (opened 64 (outside_of M.Memory B.PortBank memory.old bank.old))) output.old (refusal_of result.refusal) result.done output.new }
    ensures world { outside_of M.Memory B.PortBank memory.new bank.new ≡ (run_of script.now (length output.old) (opened 64 (outside_of M.Memory B.PortBank memory.old bank.old))).run.state.world }
    ensures stays { M.fixed memory.new ≡ M.fixed memory.old }
{
    let mut cells = [Notice::blank(); NOTICES];
    let mut desk = Desk::new(&mut cells);
    let mut done = 0;
    let played = desk.play_script(script, memory, bank, output, &mut done);
    Progress {
        done,
        refusal: played.err(),
    }
}

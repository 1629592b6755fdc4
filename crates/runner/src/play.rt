// One command played, and its answer written.
ghost use Rattle.std.specs.Prelude.{◌≡◌};
ghost use Rattle.controller.specs.Outside.{outside_of, Does};
ghost use Rattle.script.specs.Commands.{order_of};
ghost use Rattle.script.specs.Faults.{numbered};
ghost use Rattle.runner.specs.Answers.{told_of};
ghost use Rattle.runner.specs.Plays.{run_at, played};
ghost use Rattle.runner.specs.Runs.{turn_of};

use crate::answer::{Answer, answer_size};
use crate::desk::Desk;
use memory::{Memory, put};
use ports::PortBank;
use script::command::Command;
use script::fault::ScriptFault;

impl Desk<'_> {
    /// Does what a command says.
    // Memory and bank are two parameters: their owners lend them apart, and read them again afterwards.
    // `stays` stands in each contract: it is one equation, which a definition would only rename.
    pub fn play<M: Memory, B: PortBank>(
        &mut self,
        command: Command,
        memory: &mut M,
        bank: &mut B,
    ) -> Answer
        ensures does { Does (played (order_of command.entry) (run_at self.old (outside_of M.Memory B.PortBank memory.old bank.old))) (run_at self.new (outside_of M.Memory B.PortBank memory.new bank.new)) (told_of result) }
        ensures stays { M.fixed memory.new ≡ M.fixed memory.old }
    {
        match command {
            Command::Out { port, value } => Answer::Out(self.controller.write(port, value)),
            Command::In { port } => Answer::In(self.controller.read(port)),
            Command::Lines { bits } => Answer::Lines(self.controller.lines(bits)),
            Command::Step { count } => self.steps(count, memory, bank),
            Command::Put { address, bytes } => Answer::Put(put(memory, address, *bytes)),
            Command::Next => Answer::Next(self.notices.pop()),
        }
    }

    /// Plays a command and writes its answer at the start of `out`; without a place for the whole answer it is not played.
    pub(crate) fn answer<M: Memory, B: PortBank>(
        &mut self,
        command: Command,
        memory: &mut M,
        bank: &mut B,
        out: &mut [u8],
    ) -> Result<usize, ScriptFault>
        ensures does { Does (turn_of (order_of command.entry) out.old (run_at self.old (outside_of M.Memory B.PortBank memory.old bank.old))) (run_at self.new (outside_of M.Memory B.PortBank memory.new bank.new), out.new) (numbered result) }
        ensures stays { M.fixed memory.new ≡ M.fixed memory.old }
    {
        if out.len() < answer_size(command) {
            return Err(ScriptFault::NoPlace);
        }
        self.play(command, memory, bank).write(out)
    }
}

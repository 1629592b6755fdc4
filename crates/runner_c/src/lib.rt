// The runner for a host written in C: the static library that exports it.
// It repeats the runner's function: a crate is a library for Rattle or a static library for C, and only the second exports.
#![tactic(auto)]

ghost use Rattle.std.specs.Prelude.{◌≡◌, length};
ghost use Rattle.runner.specs.Runs.{Answered};
ghost use Rattle.runner.specs.Hosts.{host_run, host_bytes};

use runner::Outcome;

/// Runs a script on a new controller, with the host's bytes as memory from 0 on and its output for the answers.
#[unsafe(no_mangle)]
pub extern "C" fn sillmint_run(script: &[u8], memory: &mut [u8], output: &mut [u8]) -> Outcome
    ensures answers { Answered (host_run script.now memory.old (length output.old)) output.old result.refusal result.length output.new }
    ensures memory { memory.new ≡ host_bytes script.now memory.old (length output.old) }
{
    runner::sillmint_run(script, memory, output)
}

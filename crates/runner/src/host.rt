// The run as a host written in C calls it.
ghost use Rattle.std.specs.Prelude.{◌≡◌, length};
ghost use Rattle.runner.specs.Runs.{Answered};
ghost use Rattle.runner.specs.Hosts.{host_run, host_bytes, outcome_of, outcome_refused};

use crate::runs::run;
use memory::{Block, BlockFault};
use ports::RampBank;
use script::progress::Progress;

/// How many units wait at each channel.
const UNITS: u32 = 256;

/// The refusal that ended a run, 0 if it was the script's end, and how many bytes were answered: numbers, since C reads them.
#[repr(C)]
#[derive(Clone, Copy, PartialEq, Eq, Debug)]
pub struct Outcome {
    pub refusal: u32,
    pub length: usize,
}

impl From<Progress> for Outcome {
    ghost from_gives = { λ progress outcome. outcome ≡ outcome_of progress };

    fn from(progress: Progress) -> Outcome {
        Outcome {
            refusal: progress
                .refusal
                .map_or(0, |fault| u32::from(fault.number())),
            length: progress.done,
        }
    }
}

impl From<BlockFault> for Outcome {
    ghost from_gives = { λ fault outcome. outcome ≡ outcome_refused fault };

    fn from(fault: BlockFault) -> Outcome {
        Outcome {
            refusal: u32::from(fault.number()),
            length: 0,
        }
    }
}

/// Runs a script on a new controller, with the host's bytes as memory from 0 on and its output for the answers.
pub fn sillmint_run(script: &[u8], memory: &mut [u8], output: &mut [u8]) -> Outcome
    ensures answers { Answered (host_run script.now memory.old (length output.old)) output.old result.refusal result.length output.new }
    ensures memory { memory.new ≡ host_bytes script.now memory.old (length output.old) }
{
    // Not `Block::new`: what its lender has afterwards is known of `over` alone.
    if let Err(fault) = Block::fits(memory.len(), 0) {
        return Outcome::from(fault);
    }
    let mut block = Block::over(memory, 0, true);
    let mut bank = RampBank::counting(UNITS);
    Outcome::from(run(script, &mut block, &mut bank, output))
}

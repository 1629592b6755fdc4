// How a patch is refused.
//
// An error that keeps the error of the layer below: `From` lets `?` pass that one on, and `from_gives` tells a proof which it was.
ghost use Rattle.std.specs.Prelude.{◌≡◌, Some};
ghost use Rattle.picture.specs.Faults.{patch_number, patch_words};
ghost use Rattle.picture.specs.declared.faults.PatchFault.TheVariants.{Block, Memory};

use memory::{BlockFault, MemoryFault};
use std::error::Error;
use std::fmt;

/// Why a patch is refused: the bytes make no block, or the memory refuses the write.
#[derive(Clone, Copy, PartialEq, Eq, Debug)]
pub enum PatchFault {
    Block(BlockFault),
    Memory(MemoryFault),
}

impl PatchFault {
    /// The refusal's number.
    pub fn number(self) -> u8
        ensures { result ≡ patch_number self }
    {
        match self {
            PatchFault::Block(block) => block.number(),
            PatchFault::Memory(memory) => memory.number(),
        }
    }
}

impl fmt::Display for PatchFault {
    ghost output = { λ fault. Some (patch_words fault) };

    fn fmt<W: fmt::Write>(&self, f: &mut fmt::Formatter<W>) -> fmt::Result {
        match self {
            PatchFault::Block(block) => block.fmt(f),
            PatchFault::Memory(memory) => memory.fmt(f),
        }
    }
}

impl Error for PatchFault {}

impl From<BlockFault> for PatchFault {
    ghost from_gives = { λ fault r. r ≡ Block fault };

    fn from(fault: BlockFault) -> PatchFault {
        PatchFault::Block(fault)
    }
}

impl From<MemoryFault> for PatchFault {
    ghost from_gives = { λ fault r. r ≡ Memory fault };

    fn from(fault: MemoryFault) -> PatchFault {
        PatchFault::Memory(fault)
    }
}

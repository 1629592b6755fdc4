// Maps over lent bytes: one block whose lender knows its bytes afterwards, and a board of blocks, a join and a hole.
ghost use Rattle.std.specs.Prelude.{◌≡◌, length};
ghost use Rattle.picture.specs.Maps.{number_of, patch_of, patched, board_kinds, board_bytes, board_kind, board_byte};
ghost use Rattle.picture.specs.Faults.{patch_number};

use crate::faults::PatchFault;
use memory::{Block, Hole, Join, put};

/// Writes eight bytes into lent bytes that stand from 0 on; refused, it changes nothing.
//
// `Block::over` says that the block has the lender's bytes, and `fixed` that it still has them after the call: so it is known
// what the lender finds. `Block::new` answers a `Result`, behind which that is lost.
#[tactic(auto, using(crate::proofs::Patching::patch_bytes))]
pub fn patch(bytes: &mut [u8], address: u32, eight: [u8; 8]) -> Result<(), PatchFault>
    ensures answer { number_of patch_number result ≡ patch_of (length bytes.old) address }
    ensures after { bytes.new ≡ patched bytes.old address eight }
{
    Block::fits(bytes.len(), 0)?;
    let mut block = Block::over(bytes, 0, true);
    put(&mut block, address, eight)?;
    Ok(())
}

/// A board: writable bytes from 0 on, read-only bytes at the top, and a hole in the first.
//
// Each layer's constructor says what it holds, so the kinds and bytes of the whole follow.
pub fn board<'a>(ram: &'a mut [u8], rom: &'a mut [u8]) -> Hole<Join<Block<'a>, Block<'a>>>
    ensures kinds { board_kind result ≡ board_kinds (length ram.old) (length rom.old) }
    ensures bytes { board_byte result ≡ board_bytes ram.old rom.old }
{
    let lower = Block::over(ram, 0, true);
    let upper = Block::over(rom, 0xFFF0_0000, false);
    Hole::new(Join::new(lower, upper, 0x8000_0000), 0xA_0000, 0xB_FFFF)
}

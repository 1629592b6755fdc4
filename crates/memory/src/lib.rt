// Memories: what one is, the ones delivered here, and a write of eight bytes at once.
#![tactic(auto)]

pub mod blocks;
pub mod holes;
pub mod joins;
pub mod kinds;
pub mod layer;
pub mod puts;

pub use blocks::{Block, BlockFault};
pub use holes::Hole;
pub use joins::Join;
pub use kinds::{Kind, MemoryFault};
pub use layer::Memory;
pub use puts::put;

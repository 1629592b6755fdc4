// The register file of the seven DMA channels: what a driver reads and writes.
#![tactic(auto)]

pub mod channel;
pub mod file;
pub mod group;
pub mod list;
pub mod mode;
mod names;
pub mod ports;
pub mod reads;
pub mod refusal;
pub mod writes;

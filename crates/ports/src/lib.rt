// Port banks: what one is, and the ones delivered here.
#![tactic(auto)]

pub mod bank;
pub mod decks;
pub mod faults;
pub mod ramps;
pub mod tapes;

pub use bank::{PortBank, check_channel, is_channel, no_place};
pub use decks::Deck;
pub use faults::PortFault;
pub use ramps::{Ramp, RampBank};
pub use tapes::TapeBank;

// Tapes: first-in, first-out lines over lent cells.
#![tactic(auto)]

pub mod blanks;
pub mod lines;

pub use blanks::Blank;
pub use lines::{Tape, TapeFault};

// Accesses and refusals in words, for programs that print them.
#![tactic(auto)]

mod accesses;
mod channels;
mod names;
mod reasons;
mod values;

pub use accesses::{Levels, PortRead, PortValue, PortWrite};
pub use reasons::{Reason, Refused};

// Whole runs of a controller: calls one after another, and the law that every run keeps.
#![tactic(auto)]

pub mod calls;
mod holder;
pub mod play;
pub mod session;

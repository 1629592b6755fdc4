// Page and address registers, and the 32-bit bus addresses that they stand for.
#![tactic(auto)]

pub mod place;
pub mod worked;

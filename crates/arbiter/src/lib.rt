// Which of the asking channels gets the bus: fixed or rotating priority, in two groups.
#![tactic(auto)]

pub mod groups;
pub mod slots;
pub mod worked;

// A script run on a controller with a memory, a port bank and a tape of notices.
#![tactic(auto)]

mod answer;
mod desk;
mod host;
mod notice;
mod play;
mod runs;
mod steps;
mod worked;

pub use answer::Answer;
pub use desk::Desk;
pub use host::{Outcome, sillmint_run};
pub use notice::Notice;
pub use runs::{NOTICES, run};
pub use worked::worked_scripts;

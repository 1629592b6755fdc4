// A worked example: a memory, a bank and a tape element of one's own, and a map over lent bytes.
#![tactic(auto)]

pub mod equals;
pub mod faults;
pub mod maps;
pub mod marks;
pub mod shown;

pub use equals::EqualBank;
pub use faults::PatchFault;
pub use maps::{board, patch};
pub use marks::{Mark, note};
pub use shown::ReadOnlyPicture;

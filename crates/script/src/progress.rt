// How far a script is read or written.
use crate::fault::ScriptFault;

// How many commands were read, or bytes written, and the refusal that ended it before the end.
#[derive(Clone, Copy, PartialEq, Eq, Debug)]
pub struct Progress {
    pub done: usize,
    pub refusal: Option<ScriptFault>,
}

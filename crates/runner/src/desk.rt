// A controller with its tape of notices.
ghost use Rattle.std.specs.Prelude.{◌≡◌, length, ◌==◌};
ghost use Rattle.tape.specs.Tapes.{room};
ghost use Rattle.controller.specs.Outside.{Outside};
ghost use Rattle.runner.specs.Plays.{run_at, opened};

use crate::notice::Notice;
use controller::controller::Controller;
use tape::Tape;

/// A controller, and the tape of the notices that wait.
#[derive(Drop)]
pub struct Desk<'a> {
    pub(crate) controller: Controller,
    pub(crate) notices: Tape<'a, Notice>,
}

impl<'a> Desk<'a> {
    /// A new controller, and no notices yet.
    pub fn new(cells: &'a mut [Notice]) -> Desk<'a>
        ensures { (o : Outside) → run_at result o ≡ opened (length cells.old) o }
    {
        Desk {
            controller: Controller::new(),
            notices: Tape::empty(cells),
        }
    }

    /// Whether no further notice finds a cell.
    pub(crate) fn is_full(&self) -> bool
        ensures { result ≡ (room self.now.notices == 0) }
    {
        self.notices.is_full()
    }
}

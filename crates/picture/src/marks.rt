// An element of one's own on a tape.
//
// A record that can be copied needs a blank, and then every function of a tape takes it; nothing is proved anew.
ghost use Rattle.std.specs.Prelude.{◌≡◌};
ghost use Rattle.tape.specs.Tapes.{cells_of, contents, room, push_of, pushed, filled};
ghost use Rattle.picture.specs.Marks.{mark_of, blank_mark};

use tape::{Blank, Tape, TapeFault};

/// What happened, to whom and where.
// The cause is a byte: an enum of causes would be one more thing to read in an example of an element.
#[derive(Clone, Copy, PartialEq, Eq, Debug)]
pub struct Mark {
    pub channel: u8,
    pub cause: u8,
    pub address: u32,
}

impl Blank for Mark {
    ghost blank_of = { blank_mark };

    fn blank() -> Mark {
        Mark {
            channel: 0,
            cause: 0,
            address: 0,
        }
    }
}

/// Notes that a cause came up at a channel and an address; refused if the tape is full.
pub fn note(tape: &mut Tape<Mark>, channel: u8, cause: u8, address: u32) -> Result<(), TapeFault>
    ensures answer { result ≡ push_of (room tape.old) }
    ensures contents { contents tape.new ≡ pushed (room tape.old) (contents tape.old) (mark_of channel cause address) }
    ensures cells { cells_of tape.new ≡ filled tape.old (mark_of channel cause address) }
{
    tape.push(Mark {
        channel,
        cause,
        address,
    })
}

// Two groups of four slots: slot 0 of the second stands for the whole first group.
ghost use Rattle.std.specs.Prelude.{◌≡◌, ◌<◌, IfSome};
ghost use Rattle.arbiter.specs.Groups.{Won, group_of, second_choice};
ghost use Rattle.arbiter.specs.Slots.{asks_in, start_of};
ghost use Rattle.arbiter.specs.Waiting.{Chosen};

use crate::slots::first_from;

// One group: a mask of the slots that ask, its priority, and the slot last chosen.
#[derive(Clone, Copy, PartialEq, Eq, Debug)]
pub struct Side {
    pub asking: u8,
    pub rotating: bool,
    pub last: u8,
}

// The channel that gets the bus, the slot chosen in the second group, and that in the first if it chose.
#[derive(Clone, Copy, PartialEq, Eq, Debug)]
pub struct Choice {
    pub channel: u8,
    pub second: u8,
    pub first: Option<u8>,
}

impl Side {
    // Which slot is looked at first: slot 0, or rotating the one after the slot last chosen.
    fn start(self) -> u8
        ensures value { result ≡ start_of self.rotating self.last }
        ensures below { result < 4 }
    {
        if self.rotating {
            (self.last % 4 + 1) % 4
        } else {
            0
        }
    }

    // The slot that is chosen: the first that asks from the start on, going round.
    pub fn choose(self) -> Option<u8>
        ensures { Chosen (asks_in self.asking) self.rotating self.last result }
    {
        let asking = self.asking & 15;
        if asking == 0 {
            return None;
        }
        Some(first_from(asking, self.start()))
    }
}

// The channel of a slot of the second group; slot 0 gives way to the first group's own slot.
fn choice_of(own: Option<u8>, outer: Option<u8>) -> Option<Choice>
    requires { IfSome outer (λ s. s < 4) }
    ensures { result ≡ second_choice own outer }
{
    match outer? {
        0 => own.map(|channel| Choice {
            channel,
            second: 0,
            first: own,
        }),
        slot => Some(Choice {
            channel: slot + 4,
            second: slot,
            first: None,
        }),
    }
}

// The second group chooses among channels 5 to 7 and the first group, which chooses among channels 0 to 3.
pub fn winner(first: Side, second: Side) -> Option<Choice>
    ensures { Won (group_of first) (group_of second) result }
{
    let own = first.choose();
    let asking = second.asking & 14 | u8::from(own.is_some());
    let outer = Side { asking, ..second }.choose();
    choice_of(own, outer)
}

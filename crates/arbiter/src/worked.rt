// The order in which all seven channels are served, as a theorem about the definitions and as the code finds it.
ghost use Rattle.arbiter.specs.Groups.{first_last, group_of, second_last, winner_of};
ghost use Rattle.arbiter.specs.Order.{WorkedOrder, channel_of, set_last, worked};
ghost use Rattle.std.specs.Prelude.{◌≡◌};

use crate::groups::*;

// One choice: the channel that wins, and in both sides the slots chosen.
fn serve(first: &mut Side, second: &mut Side) -> Option<u8>
    ensures channel { result ≡ channel_of (winner_of (group_of first.old) (group_of second.old)) }
    ensures first { first.new ≡ set_last first.old (first_last (winner_of (group_of first.old) (group_of second.old)) first.old.last) }
    ensures second { second.new ≡ set_last second.old (second_last (winner_of (group_of first.old) (group_of second.old)) second.old.last) }
{
    let choice = winner(*first, *second)?;
    second.last = choice.second;
    first.last = choice.first.unwrap_or(first.last);
    Some(choice.channel)
}

// All seven ask, both groups rotate, and each choice serves one transfer.
pub fn worked_order() -> [Option<u8>; 17]
    ensures theorem { WorkedOrder }
    ensures played { result ≡ worked }
{
    let mut first = Side {
        asking: 15,
        rotating: true,
        last: 3,
    };
    let mut second = first;
    let mut order = [None; 17];
    for channel in &mut order {
        *channel = serve(&mut first, &mut second);
    }
    order
}

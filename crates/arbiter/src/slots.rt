// Four slots: who asks is a mask, and the first that asks from a start on is found in it.
ghost use Rattle.std.specs.Prelude.{◌≡◌, ℕ, ◌<◌, Some};
ghost use Rattle.arbiter.specs.Slots.{asks_in, first_from, flag_of, mask_of};

// The mask that has bit 0 for a, bit 1 for b, bit 2 for c and bit 3 for d.
// Four flags and no array: where a caller made one by a `map`, its proof did not close (tried).
pub fn mask(a: bool, b: bool, c: bool, d: bool) -> u8
    ensures value { result ≡ mask_of a b c d }
    ensures bits { (k : ℕ) → k < 4 → asks_in result k ≡ flag_of a b c d k }
{
    u8::from(a) | u8::from(b) << 1 | u8::from(c) << 2 | u8::from(d) << 3
}

// The first slot of a mask that asks, from the start on and going round: the mask is turned so that the start is its bit 0.
pub(crate) fn first_from(asking: u8, start: u8) -> u8
    requires { (0 < asking) × ((asking < 16) × (start < 4)) }
    ensures { first_from 4 (asks_in asking) start ≡ Some result }
{
    let turned = (asking >> start | asking << (4 - start)) & 15;
    (turned.trailing_zeros() as u8 + start) % 4
}

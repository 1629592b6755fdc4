// Worked addresses, as a theorem about the definitions and as the code finds them.
ghost use Rattle.bus.specs.Worked.{WorkedPlans};
ghost use Rattle.std.specs.Prelude.{◌≡◌, [], ◌∷◌};

use crate::place::*;

// FFFFh on page 01h and what follows it, plain and extended; shifted, 8000h on page 03h, and FFFFh with what follows it.
pub fn worked_addresses() -> [u32; 6]
    ensures theorem { WorkedPlans }
    ensures played { result ≡ 0x01ffff ∷ 0x010000 ∷ 0x020000 ∷ 0x030000 ∷ 0x03fffe ∷ 0x020000 ∷ [] }
{
    let plain = Course {
        addressing: Addressing::Bytes,
        extended: false,
        decrement: false,
    };
    let extended = Course {
        extended: true,
        ..plain
    };
    let words = Course {
        addressing: Addressing::Words,
        ..plain
    };
    let byte = Place {
        address: 0xffff,
        low: 0x01,
        high: 0,
    };
    let word = Place {
        address: 0xffff,
        low: 0x03,
        high: 0,
    };
    let half = Place {
        address: 0x8000,
        ..word
    };
    [
        byte.nth(plain, 0),
        byte.nth(plain, 1),
        byte.nth(extended, 1),
        half.nth(words, 0),
        word.nth(words, 0),
        word.nth(words, 1),
    ]
}

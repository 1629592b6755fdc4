// Worked scripts, as a theorem about the definitions and as the code answers them.
ghost use Rattle.std.specs.Prelude.{◌≡◌, [], ◌∷◌};
ghost use Rattle.runner.specs.Worked.{WorkedScripts};

use crate::host::sillmint_run;

/// The first group's masks read from a new controller, and a byte written to a port that is not there.
pub fn worked_scripts() -> ([u8; 3], [u8; 2])
    ensures theorem { WorkedScripts }
    ensures played { (result.0 ≡ 0x82 ∷ 0x00 ∷ 0x0F ∷ []) × (result.1 ≡ 0x81 ∷ 0x01 ∷ []) }
{
    let mut masks = [0; 3];
    sillmint_run(&[0x02, 0x0F, 0x00], &mut [], &mut masks);
    let mut refused = [0; 2];
    sillmint_run(&[0x01, 0xFF, 0x00, 0x00], &mut [], &mut refused);
    (masks, refused)
}

// What a cell of a tape may hold.
ghost use Rattle.std.specs.Prelude.{◌≡◌};

/// A kind of element that can be copied and has a blank, which stands in a cell that was freed.
// Not `Default`: its contract is a relation, so it names no value that a freed cell then has.
pub trait Blank: Copy {
    /// The blank.
    ghost blank_of: { Self };

    fn blank() -> Self
        ensures { result ≡ blank_of };
}

impl Blank for u16 {
    ghost blank_of = { 0 };

    fn blank() -> u16 {
        0
    }
}

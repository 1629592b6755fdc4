// A first-in, first-out line over lent cells.
ghost use Rattle.std.specs.Prelude.{◌≡◌, ◌-◌, ◌<◌, ◌≤◌, [], length, ◌==◌};
ghost use Rattle.tape.specs.Lines.{first_or, rest_of};

use crate::blanks::Blank;
use std::error::Error;
use std::fmt;

/// So many of the lent cells, from a start on and going round, are in use.
// A ring over lent cells, not a `VecDeque`: this crate takes no memory from a heap.
#[derive(Drop)]
pub struct Tape<'a, T> {
    cells: &'a mut [T],
    start: usize,
    count: usize,
    ghost start_within: { start ≤ length cells.now },
    ghost count_within: { count ≤ length cells.now },
}

/// Why a tape refuses.
#[derive(Clone, Copy, PartialEq, Eq, Debug)]
pub enum TapeFault {
    Full = 61,
    Empty = 62,
}

impl TapeFault {
    ghost use Rattle.tape.specs.Tapes.{tape_number};

    /// The refusal's number.
    // An enum's own and no trait's: the cast needs the enum, so a trait would have the same body seven times.
    pub fn number(self) -> u8
        ensures { result ≡ tape_number self }
    {
        self as u8
    }
}

impl fmt::Display for TapeFault {
    ghost use Rattle.std.specs.Prelude.{Some};
    ghost use Rattle.tape.specs.Tapes.{tape_words};

    ghost output = { λ fault. Some (tape_words fault) };

    fn fmt<W: fmt::Write>(&self, f: &mut fmt::Formatter<W>) -> fmt::Result {
        f.write_str(match self {
            TapeFault::Full => "the tape is full",
            TapeFault::Empty => "the tape is empty",
        })
    }
}

impl Error for TapeFault {}

#[tactic(auto, using(crate::proofs::Held::tape_steps), unfolding(crate::specs::Tapes::room, crate::specs::Tapes::place_of))]
impl<'a, T: Blank> Tape<'a, T> {
    ghost use Rattle.tape.specs.Tapes.{tape_refusal, cells_of, contents, place_of, room, push_of, pushed, filled, freed};

    /// A tape that holds nothing yet. The cells stay as lent.
    pub fn empty(cells: &'a mut [T]) -> Tape<'a, T>
        ensures contents { contents result ≡ [] }
        ensures room { room result ≡ length cells.old }
        ensures cells { cells_of result ≡ cells.old }
        ensures lender { result.cells.ghost_name ≡ cells.entry.ghost_name }
    {
        Tape {
            cells,
            start: 0,
            count: 0,
        }
    }

    /// A tape that holds what stands in the cells, in order.
    pub fn full(cells: &'a mut [T]) -> Tape<'a, T>
        ensures contents { contents result ≡ cells.old }
        ensures room { room result ≡ 0 }
        ensures cells { cells_of result ≡ cells.old }
        ensures lender { result.cells.ghost_name ≡ cells.entry.ghost_name }
    {
        let count = cells.len();
        Tape {
            cells,
            start: 0,
            count,
        }
    }

    /// How many elements the tape holds.
    pub fn len(&self) -> usize
        ensures count { result ≡ length (contents self.now) }
        ensures within { result ≤ length (cells_of self.now) }
    {
        self.count // at most as many as there are cells
    }

    /// Whether no cell is free.
    pub fn is_full(&self) -> bool
        ensures { result ≡ (room self.now == 0) }
    {
        self.len() == self.cells.len()
    }

    /// The place of the element that so many come before, going round.
    fn place(&self, before: usize) -> usize
        requires { before < length (cells_of self.now) }
        ensures value { result ≡ place_of self.now before }
        ensures bound { result < length (cells_of self.now) }
    {
        // Not `(self.start + before) % size`: where a `T` takes no memory, that sum may be too large.
        let to_end = self.cells.len() - self.start;
        if before < to_end {
            self.start + before
        } else {
            before - to_end
        }
    }

    /// The first element; refused if there is none.
    pub fn peek(&self) -> Result<T, TapeFault>
        ensures { result ≡ first_or (tape_refusal 62) (contents self.now) }
    {
        if self.count == 0 {
            return Err(TapeFault::Empty);
        }
        Ok(self.cells[self.place(0)])
    }

    /// Adds an element at the end; refused if no cell is free.
    pub fn push(&mut self, x: T) -> Result<(), TapeFault>
        ensures answer { result ≡ push_of (room self.old) }
        ensures contents { contents self.new ≡ pushed (room self.old) (contents self.old) x }
        ensures cells { cells_of self.new ≡ filled self.old x }
        ensures size { length (cells_of self.new) ≡ length (cells_of self.old) }
        ensures room { room self.new ≡ room self.old - 1 }
        ensures lender { self.new.cells.ghost_name ≡ self.old.cells.ghost_name }
    {
        if self.is_full() {
            return Err(TapeFault::Full);
        }
        let count = self.count;
        let end = self.place(count);
        self.cells[end] = x;
        self.count += 1;
        Ok(())
    }

    /// Takes the first element away and leaves a blank in its cell; refused if there is none.
    pub fn pop(&mut self) -> Result<T, TapeFault>
        ensures answer { result ≡ first_or (tape_refusal 62) (contents self.old) }
        ensures contents { contents self.new ≡ rest_of (contents self.old) }
        ensures cells { cells_of self.new ≡ freed self.old T.Blank.blank_of }
        ensures size { length (cells_of self.new) ≡ length (cells_of self.old) }
        ensures lender { self.new.cells.ghost_name ≡ self.old.cells.ghost_name }
    {
        let x = self.peek()?;
        let first = self.place(0);
        self.cells[first] = T::blank();
        self.start = first + 1;
        self.count -= 1;
        Ok(x)
    }

    /// The lent cells, as they now are.
    pub fn into_cells(self) -> &'a mut [T]
        ensures cells { result.now ≡ self.entry.cells.now }
        ensures lender { result.ghost_name ≡ self.entry.cells.ghost_name }
    {
        self.cells
    }
}

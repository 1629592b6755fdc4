// One channel's tapes.
ghost use Rattle.std.specs.Prelude.{◌≡◌, ◌-◌, [], length, if◌then◌else◌, Ok, Err, nat_lt};
ghost use Rattle.tape.specs.Lines.{first_or, rest_of};
ghost use Rattle.tape.specs.Tapes.{cells_of, pushed};
ghost use Rattle.ports.specs.Faults.{port_refusal};
ghost use Rattle.ports.specs.Decks.{deck_waiting, deck_kept, deck_free};

use crate::faults::PortFault;
use tape::Tape;

/// The tape of the units that wait at a channel, and the tape of those that it keeps.
#[derive(Drop)]
pub struct Deck<'a> {
    waiting: Tape<'a, u16>,
    kept: Tape<'a, u16>,
}

impl<'a> Deck<'a> {
    /// The units loaded wait, in order; nothing is kept, and each of the places is free.
    pub fn new(loaded: &'a mut [u16], places: &'a mut [u16]) -> Deck<'a>
        ensures waits { deck_waiting result ≡ loaded.old }
        ensures keeps { deck_kept result ≡ [] }
        ensures frees { deck_free result ≡ length places.old }
        ensures cells { (cells_of result.waiting ≡ loaded.old) × (cells_of result.kept ≡ places.old) }
    {
        Deck {
            waiting: Tape::full(loaded),
            kept: Tape::empty(places),
        }
    }

    /// The two tapes, as they now are.
    pub fn into_tapes(self) -> (Tape<'a, u16>, Tape<'a, u16>)
        ensures { (result.0 ≡ self.entry.waiting) × (result.1 ≡ self.entry.kept) }
    {
        let Deck { waiting, kept } = self;
        (waiting, kept)
    }

    /// The first unit that waits.
    pub(crate) fn look(&self) -> Result<u16, PortFault>
        ensures { result ≡ first_or (port_refusal 31) (deck_waiting self.now) }
    {
        Ok(self.waiting.peek()?)
    }

    /// The first unit that waits, which is removed.
    pub(crate) fn take(&mut self) -> Result<u16, PortFault>
        ensures answer { result ≡ first_or (port_refusal 31) (deck_waiting self.old) }
        ensures waits { deck_waiting self.new ≡ rest_of (deck_waiting self.old) }
        ensures keeps { self.new.kept ≡ self.old.kept }
    {
        Ok(self.waiting.pop()?)
    }

    /// Keeps a unit.
    pub(crate) fn give(&mut self, unit: u16) -> Result<(), PortFault>
        ensures answer { result ≡ (if nat_lt 0 (deck_free self.old) then Ok tt else Err (port_refusal 32)) }
        ensures waits { self.new.waiting ≡ self.old.waiting }
        ensures keeps { deck_kept self.new ≡ pushed (deck_free self.old) (deck_kept self.old) unit }
        ensures frees { deck_free self.new ≡ deck_free self.old - 1 }
    {
        Ok(self.kept.push(unit)?)
    }
}

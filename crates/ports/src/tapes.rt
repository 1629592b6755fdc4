// A bank on tapes.
ghost use Rattle.std.specs.Prelude.{◌≡◌};
ghost use Rattle.ports.specs.Decks.{tape_waiting, tape_kept, tape_free};

use crate::bank::PortBank;
use crate::decks::Deck;
use crate::faults::PortFault;

/// A deck for each channel.
//
// Seven fields: the check proves no array of structs that hold a `&mut` (tried).
#[derive(Drop)]
pub struct TapeBank<'a> {
    deck0: Deck<'a>,
    deck1: Deck<'a>,
    deck2: Deck<'a>,
    deck3: Deck<'a>,
    deck5: Deck<'a>,
    deck6: Deck<'a>,
    deck7: Deck<'a>,
}

impl<'a> TapeBank<'a> {
    /// A bank of seven decks, each named by its channel.
    pub fn new(
        deck0: Deck<'a>,
        deck1: Deck<'a>,
        deck2: Deck<'a>,
        deck3: Deck<'a>,
        deck5: Deck<'a>,
        deck6: Deck<'a>,
        deck7: Deck<'a>,
    ) -> TapeBank<'a>
        ensures first { (result.deck0 ≡ deck0.entry) × (result.deck1 ≡ deck1.entry) × (result.deck2 ≡ deck2.entry) × (result.deck3 ≡ deck3.entry) }
        ensures second { (result.deck5 ≡ deck5.entry) × (result.deck6 ≡ deck6.entry) × (result.deck7 ≡ deck7.entry) }
    {
        TapeBank {
            deck0,
            deck1,
            deck2,
            deck3,
            deck5,
            deck6,
            deck7,
        }
    }

    /// The decks in the order of their channels, as they now are.
    pub fn into_decks(
        self,
    ) -> (
        Deck<'a>,
        Deck<'a>,
        Deck<'a>,
        Deck<'a>,
        Deck<'a>,
        Deck<'a>,
        Deck<'a>,
    )
        ensures first { (result.0 ≡ self.entry.deck0) × (result.1 ≡ self.entry.deck1) × (result.2 ≡ self.entry.deck2) × (result.3 ≡ self.entry.deck3) }
        ensures second { (result.4 ≡ self.entry.deck5) × (result.5 ≡ self.entry.deck6) × (result.6 ≡ self.entry.deck7) }
    {
        let TapeBank {
            deck0,
            deck1,
            deck2,
            deck3,
            deck5,
            deck6,
            deck7,
        } = self;
        (deck0, deck1, deck2, deck3, deck5, deck6, deck7)
    }
}

// Asks a channel's deck. A macro: the check proves no function that answers a `&mut` to one of several fields (tried).
macro_rules! ask_deck {
    ($bank:ident, $channel:ident, $ask:ident($($unit:ident)?)) => {
        match $channel {
            0 => $bank.deck0.$ask($($unit)?),
            1 => $bank.deck1.$ask($($unit)?),
            2 => $bank.deck2.$ask($($unit)?),
            3 => $bank.deck3.$ask($($unit)?),
            5 => $bank.deck5.$ask($($unit)?),
            6 => $bank.deck6.$ask($($unit)?),
            7 => $bank.deck7.$ask($($unit)?),
            _ => Err(PortFault::NoSuchChannel),
        }
    };
}

impl PortBank for TapeBank<'_> {
    ghost waiting = { tape_waiting };

    ghost kept = { tape_kept };

    ghost free = { tape_free };

    fn look(&self, channel: u8) -> Result<u16, PortFault> {
        ask_deck!(self, channel, look())
    }

    fn take(&mut self, channel: u8) -> Result<u16, PortFault> {
        ask_deck!(self, channel, take())
    }

    fn give(&mut self, channel: u8, unit: u16) -> Result<(), PortFault> {
        ask_deck!(self, channel, give(unit))
    }
}

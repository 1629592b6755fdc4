// Why a driver's access is refused.
ghost use Rattle.std.specs.Prelude.{◌≡◌, Some};
ghost use Rattle.registers.specs.Refusals.{number_of, refusal_words};

use std::error::Error;
use std::fmt;

// Each refusal has its number.
#[derive(Clone, Copy, PartialEq, Eq, Debug)]
pub enum Refusal {
    NoSuchPort = 1,
    NoSuchChannel = 2,
    NoSuchSetting = 3,
    ListActive = 4,
    UnfitForList = 5,
    BadTablePointer = 6,
    LineFour = 7,
}

impl Refusal {
    // The number that a script's answer shows.
    // An enum's own and no trait's: the cast needs the enum, so a trait would have the same body seven times.
    pub fn number(self) -> u8
        ensures { result ≡ number_of self }
    {
        self as u8
    }
}

impl fmt::Display for Refusal {
    ghost output = { λ refusal. Some (refusal_words refusal) };

    fn fmt<W: fmt::Write>(&self, f: &mut fmt::Formatter<W>) -> fmt::Result {
        f.write_str(match self {
            Refusal::NoSuchPort => "there is no such port in that direction",
            Refusal::NoSuchChannel => "there is no such channel",
            Refusal::NoSuchSetting => "there is no such setting",
            Refusal::ListActive => "the channel's list is active",
            Refusal::UnfitForList => "no list under autoinitialise, cascade or shifted words",
            Refusal::BadTablePointer => {
                "the table pointer is no multiple of 4, or above FFFF8000h"
            }
            Refusal::LineFour => "channel 4 has no line",
        })
    }
}

impl Error for Refusal {}

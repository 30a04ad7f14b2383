// Why a call is refused: a closed list, each with a number and a word.
#![tactic(auto)]

ghost use Rattle.std.specs.Prelude.{◌≡◌, Some};
ghost use Rattle.refusal.specs.Table.{number_of, word_of};

use std::error::Error;
use std::fmt;

// One variant for each row of the refusal table (docs/REFUSALS.md), with its number there.
#[derive(Clone, Copy, PartialEq, Eq, Debug)]
pub enum Refusal {
    Form = 1,
    Range = 2,
    Overlap = 3,
    Stranger = 4,
    Memory = 5,
    Occupied = 6,
    Unknown = 7,
    Ended = 8,
    Foreign = 9,
    Full = 10,
    Early = 11,
    Section = 12,
}

// A refusal, and the line of the listing that it is found on. 0 stands for no line, by the rules and in print, so this is no Option.
#[derive(Clone, Copy, PartialEq, Eq, Debug)]
pub struct Fault {
    pub refusal: Refusal,
    pub line: u32,
}

// The number that stands for the refusal, 1 to 12.
impl From<Refusal> for u8 {
    ghost from_gives = { λ refusal number. number ≡ number_of refusal };

    fn from(refusal: Refusal) -> u8 {
        // by `as`: an enum's own number has no other way out
        refusal as u8
    }
}

impl Refusal {
    // The word that stands for the refusal. Beside `Display`, since it needs no writer and cannot fail.
    pub fn word(self) -> &'static str
        ensures { result.now ≡ word_of self }
    {
        match self {
            Refusal::Form => "form",
            Refusal::Range => "range",
            Refusal::Overlap => "overlap",
            Refusal::Stranger => "stranger",
            Refusal::Memory => "memory",
            Refusal::Occupied => "occupied",
            Refusal::Unknown => "unknown",
            Refusal::Ended => "ended",
            Refusal::Foreign => "foreign",
            Refusal::Full => "full",
            Refusal::Early => "early",
            Refusal::Section => "section",
        }
    }
}

// A refusal prints as its word. An impl for each type with a word: the orphan rule refuses one for all.
impl fmt::Display for Refusal {
    ghost output = { λ refusal. Some (word_of refusal) };

    fn fmt<W: fmt::Write>(&self, f: &mut fmt::Formatter<W>) -> fmt::Result {
        f.write_str(self.word())
    }
}

impl Error for Refusal {}

ghost use Rattle.std.specs.Prelude.{◌≡◌, Some};
ghost use Rattle.listing.specs.Rules.{word_of};
ghost use Rattle.listing.specs.Lines.{Named};

use refusal::Refusal;
use std::fmt;

// How the markers share their tasks with their peers.
#[derive(Clone, Copy, PartialEq, Eq, Debug)]
pub enum SharingRule {
    New,
    Old,
    Both,
}

impl SharingRule {
    // The word that names the rule in a listing. Beside `Display`, since it needs no writer and cannot fail.
    pub fn word(self) -> &'static str
        ensures { result.now ≡ word_of self }
    {
        match self {
            SharingRule::New => "new",
            SharingRule::Old => "old",
            SharingRule::Both => "both",
        }
    }
}

// A rule prints as its word. An impl for each type with a word: the orphan rule refuses one for all.
impl fmt::Display for SharingRule {
    ghost output = { λ rule. Some (word_of rule) };

    fn fmt<W: fmt::Write>(&self, f: &mut fmt::Formatter<W>) -> fmt::Result {
        f.write_str(self.word())
    }
}

// The sharing rule that a word names.
impl TryFrom<&[u8]> for SharingRule {
    type Error = Refusal;

    ghost try_from_gives = { λ text rule. Named text.now rule };

    fn try_from(text: &[u8]) -> Result<SharingRule, Refusal> {
        match text {
            b"new" => Ok(SharingRule::New),
            b"old" => Ok(SharingRule::Old),
            b"both" => Ok(SharingRule::Both),
            _ => Err(Refusal::Form),
        }
    }
}

// The most markers that share a heap.
pub(crate) const MOST_MARKERS: u16 = 16;

// What a listing says besides the heap: how many markers there are, 1 to 16, and how they share.
#[derive(Clone, Copy, PartialEq, Eq, Debug)]
pub struct Settings {
    pub markers: usize,
    pub share: SharingRule,
}

// The first five lines of a listing.
#[derive(Clone, Copy)]
pub struct Header {
    pub cells: u16,
    pub width: u16,
    pub markers: u16,
    pub share: SharingRule,
    pub objects: u16,
}

// What an accepted listing has in all.
#[derive(Clone, Copy)]
pub struct Totals {
    pub header: Header,
    pub references: usize,
    pub roots: usize,
}

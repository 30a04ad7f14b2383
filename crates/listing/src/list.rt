ghost use Rattle.std.specs.Prelude.{◌≡◌, ℕ, ◌-◌, ◌^◌, min, cond, ◌∷◌, length, Some, None, MatchOption, ◌==◌};
ghost use Rattle.std.specs.List.{position};
ghost use Rattle.listing.specs.Pieces.{up_to, past, pieces, listed};
ghost use Rattle.listing.specs.Survey.{surveyed};

use crate::number::number;
use refusal::Refusal;

// Where a separator first stands.
fn place_of(text: &[u8], separator: u8) -> Option<usize>
    ensures { result ≡ position (λ byte. byte == separator) text.now }
{
    text.iter().position(|byte| *byte == separator)
}

// What stands before the first separator and what stands behind it, if there is one.
pub(crate) fn split_once(text: &[u8], separator: u8) -> Option<(&[u8], &[u8])>
    ensures { MatchOption result (past separator text.now ≡ None) (λ p. (p.0.now ≡ up_to separator text.now) × (past separator text.now ≡ Some p.1.now)) }
{
    let at = place_of(text, separator)?;
    Some((&text[..at], &text[at + 1..]))
}

// How many numbers a list has, and the largest of them, or the largest u32 where that is larger.
#[derive(Clone, Copy, Default)]
pub struct Survey {
    pub count: usize,
    pub largest: u32,
}

// Zero or more numbers with single commas between; another text is a fault in form.
pub(crate) fn survey_list(text: &[u8]) -> Result<Survey, Refusal>
    ensures { result ≡ surveyed (listed text.now) }
{
    let mut seen = Survey::default();
    if text.is_empty() {
        return Ok(seen);
    }
    for piece in text.split(|byte| *byte == b',') {
        let n = number(piece)?;
        seen.count += 1;
        seen.largest = seen.largest.max(n);
    }
    Ok(seen)
}

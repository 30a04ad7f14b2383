ghost use Rattle.std.specs.Prelude.{◌≡◌, ◌≢◌, ℕ, ◌≤◌, length, Some, Err};
ghost use Rattle.heap.specs.Heap.{Heap, Lawful};
ghost use Rattle.listing.specs.Written.{written, InRange};
ghost use Rattle.listing.specs.declared.settings.Settings.{Settings};
ghost use Rattle.sheet.specs.Judged.{printed, longest, judged_up_to, answer_to, shown};

use crate::texts::Sheet;
use heap::{CheckedHeap, MOST_OBJECTS, MOST_REFERENCES, MOST_ROOTS, ObjectEntry};
use listing::read;
use refusal::{Fault, Refusal};
use std::alloc::{AllocError, Global};
use std::error::Error;
use std::fmt;

// Why a text gets no sheet.
#[derive(Clone, Copy, PartialEq, Eq, Debug)]
pub enum JudgeError {
    Refused(Fault),
    OutOfMemory,
}

// A refusal prints as two lines, its number and its line; want of memory as an `AllocError` does, without a line end.
impl fmt::Display for JudgeError {
    ghost use Rattle.sheet.specs.Texts.{error_text};

    ghost output = { λ error. Some (error_text error) };

    fn fmt<W: fmt::Write>(&self, f: &mut fmt::Formatter<W>) -> fmt::Result {
        match *self {
            JudgeError::Refused(Fault { refusal, line }) => {
                let number = u8::from(refusal);
                write!(f, "refused={number}\nline={line}\n")
            }
            JudgeError::OutOfMemory => f.write_str("memory allocation failed"),
        }
    }
}

impl Error for JudgeError {}

impl From<Fault> for JudgeError {
    ghost use Rattle.sheet.specs.declared.judge.JudgeError.TheVariants.{Refused};

    ghost from_gives = { λ fault error. error ≡ Refused fault };

    fn from(fault: Fault) -> JudgeError {
        JudgeError::Refused(fault)
    }
}

impl From<AllocError> for JudgeError {
    ghost use Rattle.sheet.specs.declared.judge.JudgeError.TheVariants.{OutOfMemory};

    ghost from_gives = { λ _ error. error ≡ OutOfMemory };

    fn from(_error: AllocError) -> JudgeError {
        JudgeError::OutOfMemory
    }
}

// The most bytes that a right listing can have.
pub fn longest_listing() -> usize
    ensures value { result ≡ longest }
    ensures law { (h : Heap) (s : Settings) → Lawful h → InRange s → length (written h s) ≤ longest }
{
    2_962_630
}

// Judges a text as a listing. One that is longer than any listing is refused for want of memory, with line 0, and not read. Whether
// there is memory for the tables, which are as long as any heap needs, is left open.
pub fn judge_listing(memory: Global, text: &[u8]) -> Result<Sheet, JudgeError>
    ensures answer { result ≢ Err JudgeError.OutOfMemory → result ≡ answer_to (judged_up_to text.now) }
    ensures shown { result ≢ Err JudgeError.OutOfMemory → shown result ≡ printed (judged_up_to text.now) }
{
    if text.len() > longest_listing() {
        return Err(JudgeError::Refused(Fault {
            refusal: Refusal::Memory,
            line: 0,
        }));
    }
    let mut objects = vec![in memory; ObjectEntry::default(); usize::from(MOST_OBJECTS)]?;
    let mut references = vec![in memory; 0u16; MOST_REFERENCES]?;
    let mut roots = vec![in memory; 0u16; MOST_ROOTS]?;
    let mut heap = CheckedHeap::empty(&mut objects, &mut references, &mut roots);
    let settings = read(text, &mut heap)?;
    Ok(Sheet::of(&heap, settings))
}

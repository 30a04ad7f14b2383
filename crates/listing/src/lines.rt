ghost use Rattle.std.specs.Prelude.{◌≡◌, ◌+◌, ◌<◌, ◌^◌, ◌≤◌, IfOk, Ok, Err, MatchResult};
ghost use Rattle.listing.specs.Lines.{value_at, read_roots};

use crate::key::Key;
use crate::list::split_once;
use crate::value::{NumberList, Value};
use heap::MOST_ROOTS;
use refusal::{Fault, Refusal};

// The lines of a listing that are still to be read: the text from line `number` on.
#[derive(Clone, Copy)]
pub struct Lines<'t> {
    pub text: &'t [u8],
    pub number: u32,
}

impl<'t> Lines<'t> {
    // The value of the next line, which has to have this key. A line is closed by byte 10. Its number is a u32, as a fault's is, so the
    // caller says that there is one more.
    pub(crate) fn value(&mut self, key: Key) -> Result<Value<'t>, Fault>
        requires { self.old.number + 1 < 2 ^ 32 }
        ensures value { MatchResult result (λ v. value_at key self.old.number self.old.text.now ≡ Ok (v.text.now, self.new.text.now)) (λ f. value_at key self.old.number self.old.text.now ≡ Err f) }
        ensures numbers { MatchResult result (λ v. (v.line ≡ self.old.number) × (self.new.number ≡ self.old.number + 1)) (λ _. self.new.number ≡ self.old.number) }
    {
        let line = self.number;
        let form = Fault {
            refusal: Refusal::Form,
            line,
        };
        let (front, rest) = split_once(self.text, b'\n').ok_or(form)?;
        let text = key.value_in(front).ok_or(form)?;
        self.text = rest;
        self.number = line + 1;
        Ok(Value { text, line })
    }

    // The roots, which are the last line of a listing.
    pub(crate) fn roots(&mut self, objects: u16) -> Result<NumberList<'t>, Fault>
        requires { self.old.number + 1 < 2 ^ 32 }
        ensures value { MatchResult result (λ l. read_roots self.old.number objects self.old.text.now ≡ Ok ((l.count, l.text.now), self.new.text.now)) (λ f. read_roots self.old.number objects self.old.text.now ≡ Err f) }
        ensures number { IfOk result (λ _. self.new.number ≡ self.old.number + 1) }
    {
        self.value(Key::Roots)?.list(0, MOST_ROOTS, objects)
    }
}

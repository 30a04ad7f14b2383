ghost use Rattle.std.specs.Prelude.{◌≡◌, ℕ, ◌+◌, ◌≤◌, IfOk, Ok, Err, MatchResult};
ghost use Rattle.refusal.specs.Table.{fault};
ghost use Rattle.listing.specs.Judge.{on_line};
ghost use Rattle.listing.specs.Survey.{NumbersIn};
ghost use Rattle.listing.specs.Lines.{numbered, width_in, at_in, len_in, ruled, counted, list_in};

use crate::list::survey_list;
use crate::number::number;
use crate::settings::SharingRule;
use heap::{MOST_CELLS, MOST_OBJECTS, MOST_SECTIONS};
use refusal::{Fault, Refusal};

// The value of a line, and the line's number.
#[derive(Clone, Copy)]
pub struct Value<'t> {
    pub text: &'t [u8],
    pub line: u32,
}

// A list of numbers in text, and how many there are: they are counted once, and each is known to be small.
#[derive(Clone, Copy)]
pub struct NumberList<'t> {
    pub text: &'t [u8],
    pub count: usize,
    ghost listed: { NumbersIn text.now count },
}

impl<'t> Value<'t> {
    // A fault on this line.
    fn fault(self, refusal: Refusal) -> Fault
        ensures { result ≡ fault refusal self.entry.line }
    {
        Fault {
            refusal,
            line: self.line,
        }
    }

    // What a layer below refuses is a fault on this line.
    fn on_line<T>(self, read: Result<T, Refusal>) -> Result<T, Fault>
        ensures { result ≡ on_line self.entry.line read }
    {
        // bound first: written inside the call, it tells the proof nothing
        let fault = |refusal| self.fault(refusal);
        read.map_err(fault)
    }

    // The value as a number between two bounds.
    pub(crate) fn number(self, low: u16, high: u16) -> Result<u16, Fault>
        ensures value { result ≡ on_line self.entry.line (numbered low high self.entry.text.now) }
        ensures bounds { IfOk result (λ n. (low ≤ n) × (n ≤ high)) }
    {
        let n = self.on_line(number(self.text))?;
        match u16::try_from(n) {
            Ok(n) if (low..=high).contains(&n) => Ok(n),
            _ => Err(self.fault(Refusal::Range)),
        }
    }

    // The value as a width: it cuts the cells into at most 64 sections.
    #[tactic(auto, using(crate::proofs::Values::sections_by_width))]
    pub(crate) fn width(self, cells: u16) -> Result<u16, Fault>
        ensures { result ≡ on_line self.entry.line (width_in cells self.entry.text.now) }
    {
        let width = self.number(1, MOST_CELLS)?;
        let sections = cells.div_ceil(width);
        if sections <= MOST_SECTIONS {
            Ok(width)
        } else {
            Err(self.fault(Refusal::Range))
        }
    }

    // The value as the start of an object, at or after the end of the object before.
    pub(crate) fn start(self, end: u16) -> Result<u16, Fault>
        ensures { result ≡ on_line self.entry.line (at_in end self.entry.text.now) }
    {
        let at = self.number(0, MOST_CELLS)?;
        if end <= at {
            Ok(at)
        } else {
            Err(self.fault(Refusal::Overlap))
        }
    }

    // The value as the length of an object, which ends within the heap.
    pub(crate) fn length(self, at: u16, cells: u16) -> Result<u16, Fault>
        ensures value { result ≡ on_line self.entry.line (len_in at cells self.entry.text.now) }
        ensures within { IfOk result (λ len. at + len ≤ cells) }
    {
        let len = self.number(1, MOST_CELLS)?;
        let end = u32::from(at) + u32::from(len);
        if end <= u32::from(cells) {
            Ok(len)
        } else {
            Err(self.fault(Refusal::Overlap))
        }
    }

    // The sharing rule that the value names.
    pub(crate) fn rule(self) -> Result<SharingRule, Fault>
        ensures { result ≡ on_line self.entry.line (ruled self.entry.text.now) }
    {
        self.on_line(SharingRule::try_from(self.text))
    }

    // The value as a list of numbers.
    pub(crate) fn list(
        self,
        before: usize,
        most: usize,
        objects: u16,
    ) -> Result<NumberList<'t>, Fault>
        ensures value { MatchResult result (λ l. on_line self.entry.line (list_in before most objects self.entry.text.now) ≡ Ok (l.count, l.text.now)) (λ f. on_line self.entry.line (list_in before most objects self.entry.text.now) ≡ Err f) }
        ensures within { IfOk result (λ l. before + l.count ≤ most) }
    {
        let text = self.text;
        let count = self.on_line(count_in(text, before, most, objects))?;
        Ok(NumberList { text, count })
    }
}

// How many numbers a list has: with those before at most `most`, each at most the number of objects.
fn count_in(text: &[u8], before: usize, most: usize, objects: u16) -> Result<usize, Refusal>
    ensures value { result ≡ counted before most objects text.now }
    ensures counts { IfOk result (λ n. NumbersIn text.now n × (before + n ≤ most)) }
{
    let list = survey_list(text)?;
    let room = most.checked_sub(before);
    if list.largest > u32::from(MOST_OBJECTS) || room.is_none_or(|room| list.count > room) {
        return Err(Refusal::Range);
    }
    if list.largest > u32::from(objects) {
        Err(Refusal::Stranger)
    } else {
        Ok(list.count)
    }
}

ghost use Rattle.std.specs.Prelude.{◌≡◌, ℕ, ◌+◌, ◌*◌, ◌≤◌, IfOk, Ok, Err, MatchResult};

use crate::header::Body;
use crate::key::Key;
use crate::lines::Lines;
use crate::settings::Header;
use crate::value::NumberList;
use heap::MOST_REFERENCES;
use refusal::Fault;

// An object as its three lines give it; its references are still text.
#[derive(Clone, Copy)]
pub struct ObjectLines<'t> {
    pub at: u16,
    pub len: u16,
    pub refs: NumberList<'t>,
}

// The objects of a listing that are still to be read: their lines, the end of the object before, and the number of references so far.
#[derive(Clone, Copy)]
pub struct ObjectReader<'t> {
    pub header: Header,
    pub lines: Lines<'t>,
    pub end: u16,
    pub references: usize,
}

impl<'t> ObjectReader<'t> {
    ghost use Rattle.listing.specs.Reading.{object_at, GoesOn};

    // The reader of all objects.
    pub(crate) fn new(body: Body<'t>) -> ObjectReader<'t>
        ensures parts { (result.header ≡ body.entry.header) × (result.lines ≡ body.entry.lines) }
        ensures start { (result.end ≡ 0) × (result.references ≡ 0) }
    {
        ObjectReader {
            header: body.header,
            lines: body.lines,
            end: 0,
            references: 0,
        }
    }

    // The next object. The last of 65,535 begins on line 6 + 3 * 65,534, so no line number wraps.
    pub(crate) fn next_object(&mut self) -> Result<ObjectLines<'t>, Fault>
        requires { self.old.lines.number ≤ 6 + 3 * 65534 }
        ensures value { MatchResult result (λ o. object_at self.old ≡ Ok ((o.at, o.len, (o.refs.count, o.refs.text.now)), self.new.lines.text.now)) (λ f. object_at self.old ≡ Err f) }
        ensures after { IfOk result (λ o. GoesOn self.old o self.new) }
        ensures within { IfOk result (λ o. self.old.references + o.refs.count ≤ 262144) }
    {
        let at = self.lines.value(Key::At)?.start(self.end)?;
        let len = self.lines.value(Key::Len)?.length(at, self.header.cells)?;
        let refs = self
            .lines
            .value(Key::Refs)?
            .list(self.references, MOST_REFERENCES, self.header.objects)?;
        self.end = at + len;
        self.references += refs.count;
        Ok(ObjectLines { at, len, refs })
    }
}

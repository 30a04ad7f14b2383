ghost use Rattle.std.specs.Prelude.{◌≡◌, ℕ, ◌+◌, ◌*◌, ◌≤◌, [], length, Err, MatchResult};
ghost use Rattle.listing.specs.Rules.{Objects};
ghost use Rattle.listing.specs.Judge.{judge, judge_text};
ghost use Rattle.listing.specs.Reading.{ObjectsRead, Accepted};

use crate::header::{Body, read_header};
use crate::objects::ObjectReader;
use crate::settings::Totals;
use refusal::{Fault, Refusal};

// Looks through the lines of all objects: the reader behind the last of them. No twin of `fill_objects`, which goes the same way over the
// lines and fills two tables from each object: here an object only has to be right.
fn check_objects(body: Body<'_>) -> Result<ObjectReader<'_>, Fault>
    ensures { MatchResult result (λ r. ObjectsRead body.entry.header body.entry.lines.text.now r.references r.lines.text.now × (r.lines.number ≡ 6 + 3 * body.entry.header.objects)) (λ f. judge_text (Objects body.entry.header [] body.entry.header.objects) 6 body.entry.lines.text.now ≡ Err f) }
{
    let mut objects = ObjectReader::new(body);
    for _ in 0..body.header.objects {
        objects.next_object()?;
    }
    Ok(objects)
}

// Judges a listing, and writes nothing: what it has in all, and its body.
pub(crate) fn check(text: &[u8]) -> Result<(Totals, Body<'_>), Fault>
    ensures { MatchResult result (λ p. Accepted text.now p.0 p.1.lines.text.now × (p.1.header ≡ p.0.header)) (λ f. judge text.now ≡ Err f) }
{
    let body = read_header(text)?;
    let header = body.header;
    let mut objects = check_objects(body)?;
    let roots = objects.lines.roots(header.objects)?;
    if !objects.lines.text.is_empty() {
        return Err(Fault {
            refusal: Refusal::Form,
            line: objects.lines.number,
        });
    }
    let totals = Totals {
        header,
        references: objects.references,
        roots: roots.count,
    };
    Ok((totals, body))
}

ghost use Rattle.std.specs.Prelude.{◌≡◌, ℕ, ◌+◌, ◌*◌, ◌<◌, ◌≤◌, ◌^◌, true, [], length, Ok, MatchResult};
ghost use Rattle.heap.specs.Heap.{Heap};
ghost use Rattle.heap.specs.Handed.{tables_of};
ghost use Rattle.listing.specs.Rules.{Objects};
ghost use Rattle.listing.specs.Judge.{judge_text};
ghost use Rattle.listing.specs.declared.settings.Settings.{Settings};
ghost use Rattle.listing.specs.Numeral.{numeral, value_of};
ghost use Rattle.listing.specs.Pieces.{numbers};
ghost use Rattle.listing.specs.Filling.{with_roots, with_heap, BodyFits, ObjectsFilled};

use crate::header::Body;
use crate::lines::Lines;
use crate::number::number;
use crate::objects::{ObjectLines, ObjectReader};
use crate::value::NumberList;
use heap::{CheckedHeap, ObjectEntry};
use refusal::Fault;

// The number that a piece of a list is. The list is known: each piece is a number, and none is above 65,535.
fn number_in(piece: &[u8]) -> u16
    requires { (numeral piece.now ≡ true) × (value_of piece.now ≤ 65535) }
    ensures { result ≡ value_of piece.now }
{
    u16::try_from(number(piece).unwrap()).unwrap()
}

// Writes the numbers of a list into places, one each.
fn fill_numbers(list: NumberList<'_>, places: &mut [u16])
    requires { list.count ≡ length places.old }
    ensures { places.new ≡ numbers list.entry.text.now }
{
    let mut pieces = list.text.split(|byte| *byte == b',');
    for place in places.iter_mut() {
        *place = number_in(pieces.next().unwrap());
    }
}

// The entry of an object whose references begin at place `first`.
fn entry_of(object: ObjectLines<'_>, first: usize) -> ObjectEntry
    requires { first + object.refs.count < 2 ^ 32 }
    ensures { result ≡ record { at = object.entry.at; len = object.entry.len; first = first; count = object.entry.refs.count } }
{
    ObjectEntry {
        at: object.at,
        len: object.len,
        first: u32::try_from(first).unwrap(),
        count: u32::try_from(object.refs.count).unwrap(),
    }
}

// Reads the lines of all objects once more, and fills the tables. The heap is empty, so its law holds whatever is written, and the
// listing is known to be right.
fn fill_objects<'t>(body: Body<'t>, heap: &mut CheckedHeap) -> Result<Lines<'t>, Fault>
    requires fits { BodyFits body.header body.lines.text.now (tables_of heap.old) }
    requires empty { (heap.old.objects ≡ 0) × (heap.old.references ≡ 0) }
    ensures { MatchResult result (λ rest. ObjectsFilled body.entry.header body.entry.lines.text.now (tables_of heap.old) (tables_of heap.new) rest.text.now × (rest.number ≡ 6 + 3 * body.entry.header.objects)) (λ _. ⊥) }
{
    let mut objects = ObjectReader::new(body);
    // bound before the loop: an invariant cannot name a table that is lent out of the heap inside it
    let entries = &mut heap.object_table[..usize::from(body.header.objects)];
    let references = &mut *heap.reference_table;
    for entry in entries.iter_mut() {
        let first = objects.references;
        let object = objects.next_object()?;
        let behind = objects.references;
        fill_numbers(object.refs, &mut references[first..behind]);
        *entry = entry_of(object, first);
    }
    Ok(objects.lines)
}

// Writes the roots. The heap has no roots yet.
fn fill_roots(roots: NumberList<'_>, heap: &mut CheckedHeap)
    requires room { roots.count ≤ length heap.old.root_table.now }
    requires empty { heap.old.roots ≡ 0 }
    ensures { tables_of heap.new ≡ with_roots roots.entry.count (numbers roots.entry.text.now) (tables_of heap.old) }
{
    fill_numbers(roots, &mut heap.root_table[..roots.count]);
}

// Reads the lines behind the header once more, and fills the tables. The heap is empty, and the listing is known to be right. That the heap
// is empty stands in clauses: a type that says so would have to lend the heap on once more, for three functions.
pub(crate) fn fill_tables(body: Body<'_>, heap: &mut CheckedHeap) -> Result<(), Fault>
    requires fits { BodyFits body.header body.lines.text.now (tables_of heap.old) }
    requires empty { (heap.old.objects ≡ 0) × (heap.old.references ≡ 0) × (heap.old.roots ≡ 0) }
    ensures { MatchResult result (λ _. (x : Heap × Settings) → judge_text (Objects body.entry.header [] body.entry.header.objects) 6 body.entry.lines.text.now ≡ Ok x → tables_of heap.new ≡ with_heap x.0 (tables_of heap.old)) (λ _. ⊥) }
{
    let mut rest = fill_objects(body, heap)?;
    let roots = rest.roots(body.header.objects)?;
    fill_roots(roots, heap);
    Ok(())
}

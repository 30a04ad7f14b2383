ghost use Rattle.std.specs.Prelude.{◌≡◌, ℕ, Ok, Err};
ghost use Rattle.heap.specs.Heap.{Heap};
ghost use Rattle.heap.specs.Handed.{tables_of, lenders_of, heap_of};
ghost use Rattle.heap.specs.Kept.{Kept};
ghost use Rattle.heap.specs.Tables.{empty_over};
ghost use Rattle.listing.specs.Judge.{judge};
ghost use Rattle.listing.specs.Laws.{Fitting, RefusedFor};
ghost use Rattle.listing.specs.Reader.{room_for, with_totals, answered, left_in};

use crate::check::check;
use crate::fill::fill_tables;
use crate::settings::{Settings, Totals};
use heap::CheckedHeap;
use refusal::{Fault, Refusal};

// Makes the heap the empty one, which is lawful whatever its tables hold.
fn clear(heap: &mut CheckedHeap)
    ensures { tables_of heap.new ≡ empty_over heap.old.object_table heap.old.reference_table heap.old.root_table }
{
    heap.objects = 0;
    heap.references = 0;
    heap.roots = 0;
    heap.cells = 1;
    heap.width = 1;
}

// The tables have room for that many objects, references and roots.
fn has_room(heap: &CheckedHeap, totals: Totals) -> bool
    ensures { result ≡ room_for totals (tables_of heap.now) }
{
    usize::from(totals.header.objects) <= heap.object_table.len()
        && totals.references <= heap.reference_table.len()
        && totals.roots <= heap.root_table.len()
}

// Sets the numbers of the heap, last of all: its tables hold it already.
fn set_numbers(heap: &mut CheckedHeap, totals: Totals)
    requires { Kept (with_totals totals (tables_of heap.old)) }
    ensures { tables_of heap.new ≡ with_totals totals (tables_of heap.old) }
{
    heap.cells = usize::from(totals.header.cells);
    heap.width = usize::from(totals.header.width);
    heap.objects = usize::from(totals.header.objects);
    heap.references = totals.references;
    heap.roots = totals.roots;
}

// Reads a listing into the heap. The first faulty line is refused, and tables that are too short last, with line 0; a refusal leaves the
// heap and every table as they were. An accepted listing fills just the places that it needs.
pub fn read(text: &[u8], heap: &mut CheckedHeap) -> Result<Settings, Fault>
    ensures answer { result ≡ answered (judge text.now) (tables_of heap.old) }
    ensures tables { tables_of heap.new ≡ left_in (judge text.now) (tables_of heap.old) }
    ensures lenders { lenders_of heap.new ≡ lenders_of heap.old }
    ensures accepted { (s : Settings) → result ≡ Ok s → Fitting text.now (heap_of heap.new) s (tables_of heap.old) }
    ensures accepts { (h : Heap) (s : Settings) → Fitting text.now h s (tables_of heap.old) → (result ≡ Ok s) × (heap_of heap.new ≡ h) }
    ensures refused { (f : Fault) → result ≡ Err f → RefusedFor text.now (tables_of heap.old) f }
    ensures refuses { (f : Fault) → RefusedFor text.now (tables_of heap.old) f → result ≡ Err f }
{
    let (totals, body) = check(text)?;
    if !has_room(heap, totals) {
        return Err(Fault {
            refusal: Refusal::Memory,
            line: 0,
        });
    }
    clear(heap);
    fill_tables(body, heap)?;
    set_numbers(heap, totals);
    Ok(Settings {
        markers: usize::from(totals.header.markers),
        share: totals.header.share,
    })
}

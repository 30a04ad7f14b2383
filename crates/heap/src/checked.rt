ghost use Rattle.std.specs.Prelude.{◌≡◌, ℕ, ◌+◌, ◌<◌, ◌≤◌, length, slice_index_or};
ghost use Rattle.heap.specs.Heap.{sections_of};
ghost use Rattle.heap.specs.Tables.{entry_at, counted_to};

use crate::entry::ObjectEntry;

// A heap in tables that the caller lends. The tables may be longer than the heap needs: what lies behind is not its own, so each has its
// number of places beside it, and no Vec can hold what is lent.
// The ghost fields are the law of a heap, and hold of every value.
#[derive(Drop)]
pub struct CheckedHeap<'a> {
    pub cells: usize,
    pub width: usize,
    pub objects: usize,
    pub references: usize,
    pub roots: usize,
    pub object_table: &'a mut [ObjectEntry],
    pub reference_table: &'a mut [u16],
    pub root_table: &'a mut [u16],
    ghost long: { (1 ≤ cells) × (cells ≤ 65535) },
    ghost wide: { (1 ≤ width) × (width ≤ 65535) },
    ghost cut: { sections_of cells width ≤ 64 },
    ghost few: { (objects ≤ 65535) × (references ≤ 262144) × (roots ≤ 4096) },
    ghost held: { (objects ≤ length object_table.now) × (references ≤ length reference_table.now) × (roots ≤ length root_table.now) },
    // every object has a cell and ends within the heap
    ghost inside: { (k : ℕ) → k < objects → (1 ≤ (entry_at object_table.now k).len) × ((entry_at object_table.now k).at + (entry_at object_table.now k).len ≤ cells) },
    // every object begins at or after the end of the one before
    ghost apart: { (k : ℕ) → k + 1 < objects → (entry_at object_table.now k).at + (entry_at object_table.now k).len ≤ (entry_at object_table.now (k + 1)).at },
    // the references of each object follow those of the one before
    ghost follow: { (k : ℕ) → k < objects → (entry_at object_table.now k).first ≡ counted_to k object_table.now },
    ghost counted: { references ≡ counted_to objects object_table.now },
    // every reference and every root is an object's number, or 0 for none: the words of the tables have no room for an Option
    ghost known: { (k : ℕ) → k < references → slice_index_or reference_table.now k 0 ≤ objects },
    ghost rooted: { (k : ℕ) → k < roots → slice_index_or root_table.now k 0 ≤ objects },
}

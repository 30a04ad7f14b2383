ghost use Rattle.std.specs.Prelude.{◌≡◌, ℕ, ◌+◌, ◌<◌, ◌≤◌, length, sum_by};
ghost use Rattle.heap.specs.Heap.{sections_of, cells_in, Lawful};
ghost use Rattle.heap.specs.Handed.{tables_of, heap_of};
ghost use Rattle.heap.specs.Tables.{empty_over};

use crate::checked::CheckedHeap;
use crate::entry::ObjectEntry;

impl<'a> CheckedHeap<'a> {
    // The empty heap over any tables: one cell, width 1, nothing in it.
    pub fn empty(
        object_table: &'a mut [ObjectEntry],
        reference_table: &'a mut [u16],
        root_table: &'a mut [u16],
    ) -> CheckedHeap<'a>
        ensures { tables_of result ≡ empty_over object_table.entry reference_table.entry root_table.entry }
    {
        CheckedHeap {
            cells: 1,
            width: 1,
            objects: 0,
            references: 0,
            roots: 0,
            object_table,
            reference_table,
            root_table,
        }
    }

    // The number of sections, 1 to 64. Asked of any checked heap, the law holds.
    pub fn sections(&self) -> usize
        ensures value { result ≡ sections_of (heap_of self.now).cells (heap_of self.now).width }
        ensures bounds { (1 ≤ result) × (result ≤ 64) }
        ensures lawful { Lawful (heap_of self.now) }
    {
        self.cells.div_ceil(self.width)
    }

    // How many cells the objects cover. No two objects share a cell, so this is the sum of their lengths.
    pub fn covered(&self) -> usize
        ensures value { result ≡ cells_in (heap_of self.now).objects }
        ensures within { result ≤ self.now.cells }
    {
        total_length(&self.object_table[..self.objects])
    }
}

// The sum of the lengths of entries. That of 65,535 cannot wrap, and no heap has more objects.
fn total_length(entries: &[ObjectEntry]) -> usize
    requires { length entries.now ≤ 65535 }
    ensures { result ≡ sum_by (λ e. e.len) entries.now }
{
    entries.iter().map(|entry| usize::from(entry.len)).sum()
}

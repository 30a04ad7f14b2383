// A checked heap over lent tables: no value of this type breaks the law of a heap.
#![tactic(auto)]

mod checked;
mod entry;
mod limits;
mod questions;

pub use checked::CheckedHeap;
pub use entry::ObjectEntry;
pub use limits::{MOST_CELLS, MOST_OBJECTS, MOST_REFERENCES, MOST_ROOTS, MOST_SECTIONS};

ghost use Rattle.std.specs.Prelude.{◌≡◌, Some};
ghost use Rattle.heap.specs.Handed.{heap_of};
ghost use Rattle.sheet.specs.Texts.{help_text};

use heap::CheckedHeap;
use listing::{Settings, SharingRule};
use std::fmt;

// What `check_listing --help` prints.
pub fn help_text() -> &'static str
    ensures { result.now ≡ help_text }
{
    "check_listing: judges the listing of a heap.\n\nusage: check_listing [FILE]\n       check_listing --help\n\nReads FILE, or standard input. An accepted listing prints a sheet, one key=value a line:\ncells, width, sections, markers, share, objects, references, roots, covered.\nA refused one prints refused= and the refusal's number, then line= and the line, and ends\nwith status 1: 1 form, 2 range, 3 overlap, 4 stranger, 5 memory. Line 0 stands for no line.\n"
}

// What is printed of an accepted listing.
#[derive(Clone, Copy, PartialEq, Eq, Debug)]
pub struct Sheet {
    pub cells: usize,
    pub width: usize,
    pub sections: usize,
    pub markers: usize,
    pub share: SharingRule,
    pub objects: usize,
    pub references: usize,
    pub roots: usize,
    pub covered: usize,
}

impl Sheet {
    ghost use Rattle.sheet.specs.Texts.{sheet_of};

    // The sheet of a heap and its settings.
    #[tactic(auto, using(heap::proofs::Laid::counts))]
    pub fn of(heap: &CheckedHeap, settings: Settings) -> Sheet
        ensures { result ≡ sheet_of (heap_of heap.now) settings }
    {
        Sheet {
            cells: heap.cells,
            width: heap.width,
            sections: heap.sections(),
            markers: settings.markers,
            share: settings.share,
            objects: heap.objects,
            references: heap.references,
            roots: heap.roots,
            covered: heap.covered(),
        }
    }
}

// One line each, key=value.
impl fmt::Display for Sheet {
    ghost use Rattle.sheet.specs.Texts.{sheet_lines};

    ghost output = { λ sheet. Some (sheet_lines sheet) };

    fn fmt<W: fmt::Write>(&self, f: &mut fmt::Formatter<W>) -> fmt::Result {
        let Sheet {
            cells,
            width,
            sections,
            markers,
            share,
            objects,
            references,
            roots,
            covered,
        } = *self;
        write!(
            f,
            "cells={cells}\n\
             width={width}\n\
             sections={sections}\n\
             markers={markers}\n\
             share={share}\n\
             objects={objects}\n\
             references={references}\n\
             roots={roots}\n\
             covered={covered}\n"
        )
    }
}

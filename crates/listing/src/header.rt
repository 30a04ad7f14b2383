ghost use Rattle.std.specs.Prelude.{◌≡◌, Ok, Err, MatchResult};
ghost use Rattle.listing.specs.Lines.{read_header};

use crate::key::Key;
use crate::lines::Lines;
use crate::settings::{Header, MOST_MARKERS};
use heap::{MOST_CELLS, MOST_OBJECTS};
use refusal::Fault;

// A listing behind its header: the header, and the lines from line 6 on.
#[derive(Clone, Copy)]
pub struct Body<'t> {
    pub header: Header,
    pub lines: Lines<'t>,
    ghost sixth: { lines.number ≡ 6 },
}

// Reads the first five lines.
pub(crate) fn read_header(text: &[u8]) -> Result<Body<'_>, Fault>
    ensures { MatchResult result (λ b. read_header text.now ≡ Ok (b.header, b.lines.text.now)) (λ f. read_header text.now ≡ Err f) }
{
    let mut lines = Lines { text, number: 1 };
    let cells = lines.value(Key::Cells)?.number(1, MOST_CELLS)?;
    let width = lines.value(Key::Width)?.width(cells)?;
    let markers = lines.value(Key::Markers)?.number(1, MOST_MARKERS)?;
    let share = lines.value(Key::Share)?.rule()?;
    let objects = lines.value(Key::Objects)?.number(0, MOST_OBJECTS)?;
    let header = Header {
        cells,
        width,
        markers,
        share,
        objects,
    };
    Ok(Body { header, lines })
}

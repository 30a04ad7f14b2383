ghost use Rattle.std.specs.Prelude.{◌≡◌};
ghost use Rattle.std.specs.Option.{option_map};
ghost use Rattle.listing.specs.Keys.{start_of};
ghost use Rattle.listing.specs.Judge.{behind};

// The key of a line.
#[derive(Clone, Copy, PartialEq, Eq, Debug)]
pub enum Key {
    Cells,
    Width,
    Markers,
    Share,
    Objects,
    At,
    Len,
    Refs,
    Roots,
}

// What stands behind these bytes and one = sign. A line is split by a pattern of its bytes: a rule of the project.
macro_rules! behind {
    ($line:expr, $($byte:literal),+) => {
        match $line {
            [$($byte),+, b'=', rest @ ..] => Some(rest),
            _ => None,
        }
    };
}

impl Key {
    // What stands behind the key and its = sign; none where the line does not begin so.
    pub(crate) fn value_in(self, line: &[u8]) -> Option<&[u8]>
        ensures { option_map (λ x. x.now) result ≡ behind (start_of self) line.now }
    {
        match self {
            Key::Cells => behind!(line, b'c', b'e', b'l', b'l', b's'),
            Key::Width => behind!(line, b'w', b'i', b'd', b't', b'h'),
            Key::Markers => behind!(line, b'm', b'a', b'r', b'k', b'e', b'r', b's'),
            Key::Share => behind!(line, b's', b'h', b'a', b'r', b'e'),
            Key::Objects => behind!(line, b'o', b'b', b'j', b'e', b'c', b't', b's'),
            Key::At => behind!(line, b'a', b't'),
            Key::Len => behind!(line, b'l', b'e', b'n'),
            Key::Refs => behind!(line, b'r', b'e', b'f', b's'),
            Key::Roots => behind!(line, b'r', b'o', b'o', b't', b's'),
        }
    }
}

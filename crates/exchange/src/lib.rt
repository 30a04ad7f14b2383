// The exchange between markers, and two kinds of it: a ring of entries for each pair, and one pool for all pairs.
#![tactic(auto)]

mod answer;
mod cursors;
mod meaning;
mod pair;
mod pool;
mod ring;

pub use answer::Put;
pub use meaning::Exchange;
pub use pair::Pair;
pub use pool::Pool;
pub use ring::Ring;

// The most markers that an exchange serves. A number, and no type that is 1 to 16: with a struct that has ghost fields beside its lent words, a
// ring could be no type argument, as it is of each function over `X: Exchange`.
const MOST_MARKERS: usize = 16;

// How many pairs so many markers have.
const PAIRS: usize = MOST_MARKERS * (MOST_MARKERS - 1);

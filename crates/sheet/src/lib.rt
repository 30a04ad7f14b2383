// What `check_listing` prints of a text: the sheet of an accepted listing, or its refusal.
#![tactic(auto)]

mod judge;
mod texts;

pub use judge::{JudgeError, judge_listing, longest_listing};
pub use texts::{Sheet, help_text};

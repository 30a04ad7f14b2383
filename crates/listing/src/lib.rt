// The reader of a listing: number, list, the value of a line, line, header and objects, listing, each a layer that passes its refusal up.
#![tactic(auto)]

mod check;
mod fill;
mod header;
mod key;
mod lines;
mod list;
mod number;
mod objects;
mod reader;
mod settings;
mod value;

pub use reader::read;
pub use settings::{Settings, SharingRule};

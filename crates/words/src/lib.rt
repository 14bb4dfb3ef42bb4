// Words of 32 bits, a kind in the top two and a value in the low 30, or a mark in the top three and an amount in the low
// 29: read from a list of bytes, and put into one.
#![tactic(auto)]

mod bits;
mod word;
mod writer;

pub use bits::{rest, tag, tagged};
pub use word::{Word, get, nth};
pub use writer::Writer;

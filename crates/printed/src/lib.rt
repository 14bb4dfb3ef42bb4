// What the plan program prints of a word file (specs/), how long it is at most and what can be read from it
// (proofs/). Of code there are its lines, written into a lent list of bytes, and its room.
#![tactic(auto)]

pub mod lines;
mod room;

pub use room::LISTING_BYTES;

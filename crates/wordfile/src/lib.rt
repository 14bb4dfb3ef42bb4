// Word files: a request as 32-bit words, read into lent lists and written into a lent list of bytes.
#![tactic(auto, using(model::proofs::Answer::told_some))]

mod form;
mod frame;
mod reader;
mod writer;

pub use reader::{Header, read};
pub use writer::write;

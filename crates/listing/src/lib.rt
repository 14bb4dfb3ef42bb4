// The text that the plan program prints, written into a lent list of bytes.
#![tactic(auto)]

mod listings;

pub use listings::list;

// The static library for C and Rust (include/energy.h): each entry of the product under its plain name, its answer
// made into what C gets.
#![tactic(auto)]

pub mod files;
pub mod grade;
pub mod listings;
pub mod needed;
pub mod plan;
pub mod shifts;
pub mod trace;

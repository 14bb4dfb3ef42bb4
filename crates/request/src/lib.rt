// The refusals that several entries share, as code over lent lists: each function answers what model's definition of
// that refusal says. All of it is inner: the entries of other crates call it.
#![tactic(auto, using(model::proofs::Answer::told_some))]

mod bounds;
mod entries;
mod figures;
mod frames;
mod reach;
mod refusals;
mod sums;
mod whole;

pub use bounds::check_bounds;
pub use entries::{check_needed, check_plan, check_start, check_trace};
pub use figures::{check_figures, check_harvest};
pub use frames::{check_frames, check_length};
pub use reach::check_reachable;
pub use refusals::check_that;
pub use sums::most_energy;
pub use whole::{Whole, check_lists};

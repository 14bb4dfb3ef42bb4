// What makes a plan right: levels, one for each frame, that pass one backward check (`certify`) give the plan's
// budgets in one forward pass (`follow`), however they were found (`by_levels`). Besides, what the budgets of a plan
// require (`peak_requirement`). All over any frames, which `Frames` reads.
//
// The source is Lemma 6 of Moser, Chen and Thiele, "Reward Maximization for Embedded Systems with Renewable
// Energies": consumption rises only where the store is empty and falls only where it is full. What differs: budgets
// are whole numbers, so a frame spends its level or one unit more, and frames may have a drain, a least and a most;
// and what the source shows of the result of its own algorithm is tested here, on levels of which nothing is known.
#![tactic(auto)]

mod backward;
mod bits;
mod draft;
mod forward;
mod frame;
mod frames;
mod requirement;
mod weight;

pub use bits::low_bits;
pub use draft::Draft;
pub use frame::{At, Rule, draw};
pub use frames::Frames;
pub use requirement::peak_requirement;

// The second guess: the reserve as a curve over the levels, kept by its knots. `levels` tells how.
#![tactic(auto)]

mod curve;
mod knots;
mod levels;
mod pass;

pub use knots::Knot;
pub use levels::curve_levels;

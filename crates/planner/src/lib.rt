// The plan of a request and the capacity that it needs: two entries over lent lists, with no assumption on their
// arguments, and under each an inner function for requests that are not refused.
#![tactic(auto, using(model::proofs::Answer::told_some))]

pub mod needed;
pub mod plan;

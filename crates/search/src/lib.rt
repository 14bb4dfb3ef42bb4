// The plainest way to the plan, for levels that are not certified: in every frame the budget is searched by halves.
#![tactic(auto)]

mod place;
mod scan;
mod search;

pub use search::search_all;

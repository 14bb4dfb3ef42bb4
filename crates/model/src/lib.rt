// What a request, a feasible assignment, a plan and a needed capacity are (specs/), and the theorems about them
// (proofs/). Of code there are the limits, a request as it is lent, the refusals, and the frame rule.
#![tactic(auto)]

pub mod frame;
pub mod limits;
mod refusal;

pub use refusal::Refusal;

// The figures of a request.
#[repr(C)]
#[derive(Clone, Copy, Default)]
pub struct Figures {
    pub capacity: u32,
    pub start: u32,
    pub end: u32,
}

// What all frames of a request share: the store's capacity, and an energy that no budget is above, the most of a frame
// that has no upper end.
#[derive(Clone, Copy)]
pub struct Store {
    pub capacity: u64,
    pub energy: u64,
}

// A harvest, a least and a most for each frame, in three lists since C lends each by itself; no length is known.
#[derive(Clone, Copy)]
pub struct Lists<'a> {
    pub harvest: &'a [u32],
    pub least: &'a [u32],
    pub most: &'a [u32],
}

// A request as it is lent.
#[derive(Clone, Copy)]
pub struct Request<'a> {
    pub figures: Figures,
    pub lists: Lists<'a>,
}

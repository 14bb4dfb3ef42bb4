// Where a budget is searched, and the range in which it is caught.
ghost use Rattle.std.specs.Prelude.{◌≤◌, ◌^◌};
ghost use Rattle.certifier.specs.Says.{frame_count};

use certifier::{At, Frames};

// A frame that has so much and is followed by the frames from `next` on.
#[derive(Clone, Copy)]
pub struct Place<'a> {
    pub frames: Frames<'a>,
    pub next: usize,
    pub frame: At,
    pub have: u64,
    pub ghost within: { next ≤ frame_count frames },
    pub ghost fits: { have ≤ 2 ^ 33 },
}

// The greatest budget accepted so far and the greatest not refused yet.
#[derive(Clone, Copy)]
pub struct Range {
    pub good: u64,
    pub top: u64,
}

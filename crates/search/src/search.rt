// The plainest way to the plan: in every frame the budget is searched by halves, and each trial is one scan.
ghost use Rattle.std.specs.Prelude.{◌≡◌, ◌-◌, ◌≤◌, ◌<◌, length};
ghost use Rattle.certifier.specs.Says.{Startable, frame_count, PlannedIn};
ghost use Rattle.search.specs.Search.{BetweenAt, CaughtAt};

use super::place::{Place, Range};
use super::scan::scan;
use certifier::Frames;

// Tries the middle of the range.
fn narrow(place: Place, at: Range) -> Range
    requires { (at.good < at.top) × BetweenAt place at }
    ensures { BetweenAt place.entry result × (result.top - result.good < at.top - at.good) }
{
    let middle = at.top - (at.top - at.good) / 2;
    if scan(place.frames, place.next, place.have - middle, middle - 1) {
        return Range {
            good: middle,
            top: at.top,
        };
    }
    Range {
        good: at.good,
        top: middle - 1,
    }
}

// The budget at a place.
fn search(place: Place) -> u64
    requires { (place.frame.least ≤ place.frame.most) × (place.frame.least ≤ place.have) }
    ensures { CaughtAt place.entry result }
{
    let mut at = Range {
        good: place.frame.least,
        top: place.frame.most.min(place.have),
    };
    // no index is counted: the range is halved
    while at.good < at.top {
        at = narrow(place, at);
    }
    at.good
}

// Writes the plan's budgets. Frames and list come apart: a struct over both is `Draft`, which lends them here and has a
// list for reserves besides, which a search does not need.
pub fn search_all(frames: Frames, start: u64, budgets: &mut [u32])
    requires { Startable frames.rule frames.lists.harvest.now frames.lists.least.now frames.lists.most.now start ×
        (length budgets.old ≡ frame_count frames) }
    ensures { PlannedIn frames.entry start budgets.new }
{
    let mut y = start;
    for i in 0..frames.count() {
        let frame = frames.at(i);
        let have = frame.has(y);
        let b = search(Place {
            frames,
            next: i + 1,
            frame,
            have,
        });
        budgets[i] = b as u32;
        y = have - b;
    }
}

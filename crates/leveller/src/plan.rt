// How a plan comes about (docs/READING.md tells it in words). A level is guessed for each frame, which draws it, or its
// least or its most where that binds: one level for all frames, or else the levels that the curve of reserves gives.
// Certifier's `by_levels` certifies the levels and has the budgets follow them; where neither guess is certified, every
// budget is searched. A guess that is wrong costs time and nothing else. Below stands what lists all this works in.
ghost use Rattle.std.specs.Prelude.{◌≡◌, true, length, ◌≤◌, ◌<◌, ◌^◌};
ghost use Rattle.model.specs.Limits.{max_frames};
ghost use Rattle.certifier.specs.Says.{frame_count, PlannedIn};
ghost use Rattle.certifier.specs.Draft.{TriedOn};

use super::level::one_level;
use super::task::Task;
use certifier::Draft;
use curve::{Knot, curve_levels};
use model::limits::MAX_FRAMES;
use search::search_all;

// Writes the plan's budgets by the first guess that is certified, or by a search in every frame.
fn guess_or_search<const KNOTS: usize>(draft: &mut Draft)
    requires { KNOTS < 2 ^ 32 }
    ensures { TriedOn draft.old draft.new true }
{
    if by_one_level(draft) || by_curve::<KNOTS>(draft) {
        return;
    }
    search_all(draft.frames, draft.start, draft.budgets);
}

// The plan by one level for all frames, if there is one that is worth a certificate.
fn by_one_level(draft: &mut Draft) -> bool
    ensures { TriedOn draft.old draft.new result }
{
    let Some(level) = one_level(draft.frames, draft.start) else {
        return false;
    };
    draft.budgets.fill(level);
    draft.by_levels()
}

// The plan by the curve, which keeps the last level at which the reserve is not full in `after`, for each frame, until
// the certificate writes there.
fn by_curve<const KNOTS: usize>(draft: &mut Draft) -> bool
    requires { KNOTS < 2 ^ 32 }
    ensures { TriedOn draft.old draft.new result }
{
    let mut knots = [Knot::default(); KNOTS];
    let (highs, levels) = (&mut *draft.after, &mut *draft.budgets);
    curve_levels(draft.frames, draft.start, levels, highs, &mut knots);
    draft.by_levels()
}

// The most frames for which short lists are taken, which take less time to clear: enough for a day of quarter hours.
// Lists are arrays, since memory is fixed and there is no heap, and the size of an array is a constant: so each
// function that makes one is called at two sizes.
pub(super) const DAY: usize = 128;

// How many knots the curve may have: four for each frame.
const DAY_KNOTS: usize = 4 * DAY;

const MAX_KNOTS: usize = 4 * MAX_FRAMES;

// Writes the plan's budgets, with lists for N frames. The task and the budgets come from different hands, the one
// before there is a `Draft`, which is a struct over both; so their lengths are asked here.
fn plan_in<const N: usize, const KNOTS: usize>(task: Task, budgets: &mut [u32])
    requires { (length budgets.old ≡ frame_count task.frames) × (frame_count task.frames ≤ N) × (N ≤ max_frames) ×
        (KNOTS < 2 ^ 32) }
    ensures { PlannedIn task.entry.frames task.entry.start budgets.new }
{
    let mut after = [0u32; N];
    let mut draft = Draft {
        frames: task.frames,
        start: task.start,
        after: &mut after,
        budgets,
    };
    guess_or_search::<KNOTS>(&mut draft);
}

impl Task<'_> {
    // Writes the plan's budgets.
    pub fn plan_into(self, budgets: &mut [u32])
        requires { length budgets.old ≡ frame_count self.frames }
        ensures { PlannedIn self.entry.frames self.entry.start budgets.new }
    {
        if self.frames.count() <= DAY {
            plan_in::<DAY, DAY_KNOTS>(self, budgets);
        } else {
            plan_in::<MAX_FRAMES, MAX_KNOTS>(self, budgets);
        }
    }
}

// What a plan requires of the store, for the needed capacity.
ghost use Rattle.std.specs.Prelude.{◌≤◌};
ghost use Rattle.model.specs.Limits.{max_frames};
ghost use Rattle.certifier.specs.Says.{frame_count};
ghost use Rattle.leveller.specs.Says.{PeakOf};

use super::plan::DAY;
use super::task::Task;
use certifier::peak_requirement;
use model::limits::MAX_FRAMES;

// `Task::peak` with a list for N frames.
fn peak_in<const N: usize>(task: Task) -> u64
    requires { (frame_count task.frames ≤ N) × (N ≤ max_frames) }
    ensures { PeakOf task.entry result }
{
    let mut list = [0u32; N];
    let budgets = &mut list[..task.frames.count()];
    task.plan_into(budgets);
    peak_requirement(task.frames, budgets)
}

impl Task<'_> {
    // The least capacity whose ceilings hold, in every frame, its drain, its budget and what is required after it.
    pub fn peak(self) -> u64
        ensures { PeakOf self.entry result }
    {
        if self.frames.count() <= DAY {
            peak_in::<DAY>(self)
        } else {
            peak_in::<MAX_FRAMES>(self)
        }
    }
}

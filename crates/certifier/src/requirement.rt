// What budgets require of the store.
ghost use Rattle.std.specs.Prelude.{◌≡◌, ◌<◌, ◌^◌, length};
ghost use Rattle.model.specs.Plan.{peak};
ghost use Rattle.certifier.specs.Says.{frames_in, frame_count};

use super::frames::{Frames, capacity_for};

// The least capacity whose ceilings hold, in every frame, its drain, its budget and what is required after it.
pub fn peak_requirement(frames: Frames, budgets: &[u32]) -> u64
    requires { (length budgets.now ≡ frame_count frames) × (frame_count frames < 2 ^ 20) }
    ensures { result ≡ peak frames.entry.rule.end (frames_in frames.entry) budgets.now }
{
    let mut charge = frames.rule.end;
    let mut top = 0;
    for k in (0..frames.count()).rev() {
        let f = frames.at(k);
        let amount = f.drain + budgets[k] as u64 + charge;
        top = capacity_for(amount, f.inflow).max(top);
        charge = amount.saturating_sub(f.inflow);
    }
    top
}

// The charge after each frame, as a signed number that goes on below zero, and what the frame loses.
ghost use Rattle.std.specs.Prelude.{◌≡◌, ◌≤◌, length};
ghost use Rattle.model.specs.Limits.{max_frames};
ghost use Rattle.model.specs.Request.{request};
ghost use Rattle.model.specs.Trace.{trace, trace_losses};

use model::Figures;
use model::frame::{TracedEnd, frame_end};

// Charge and loss of each frame, from a start charge within the capacity: so no loss is above its frame's harvest. The
// lists' lengths are clauses, here and in `judge`, and no type: the check just before the call tells them of lists that
// are lent apart, and each is used this once, so that a type would be made of the lists for a single call.
pub fn fill(
    figures: Figures,
    harvest: &[u32],
    budgets: &[u32],
    charges: &mut [i64],
    losses: &mut [u32],
)
    requires start_le_capacity { figures.start ≤ figures.capacity }
    requires harvest_len_bound { length harvest.now ≤ max_frames }
    requires budgets_len { length budgets.now ≡ length harvest.now }
    requires charges_len { length charges.old ≡ length harvest.now }
    requires losses_len { length losses.old ≡ length harvest.now }
    ensures charges_after { charges.new ≡ trace (request figures harvest.now) budgets.now }
    ensures losses_after { losses.new
        ≡ trace_losses (request figures harvest.now) budgets.now }
{
    let capacity = figures.capacity;
    // What the last frame ended with; before the first, the start charge and nothing lost.
    let mut end = TracedEnd {
        charge: figures.start as i64,
        lost: 0,
    };
    // By places: tried as a zip of the four lists, with `iter_mut`, of whose writes a proof knows nothing afterwards.
    for i in 0..charges.len() {
        end = frame_end(capacity, end.charge, harvest[i], budgets[i] as u64);
        charges[i] = end.charge;
        losses[i] = end.lost as u32;
    }
}

// The verdict on the charges of a trace.
ghost use Rattle.std.specs.Prelude.{◌≡◌, ◌≤◌, length};
ghost use Rattle.model.specs.Limits.{max_frames};
ghost use Rattle.tracer.specs.Says.{judged};

use crate::Verdict;
use model::Figures;

// The verdict on the charges of at least one frame, the last of which has to reach the end charge: the earliest below
// zero among all but the last is named. How long the list is, is a clause: see `fill`.
pub fn judge(figures: Figures, charges: &[i64]) -> Verdict
    requires in_bounds { 1 ≤ length charges.now }
    requires charges_len_bound { length charges.now ≤ max_frames }
    ensures { result ≡ judged figures charges.now }
{
    let last = charges.len() - 1;
    match charges[0..last].iter().position(|charge| *charge < 0) {
        Some(i) => Verdict::BelowZero(i as u32 + 1),
        None if (figures.end as i64) <= charges[last] => Verdict::Feasible,
        None => Verdict::EndTooLow,
    }
}

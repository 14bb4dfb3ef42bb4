// Refusals 9 and 11: whether the end charge is in reach, and whether the leasts taken as budgets are feasible.
ghost use Rattle.std.specs.Prelude.{◌≡◌, true, ◌+◌, ◌*◌, ◌≤◌, length, replicate};
ghost use Rattle.model.specs.Answer.{refused, asked};
ghost use Rattle.model.specs.Limits.{max_capacity, max_frames, max_harvest};
ghost use Rattle.model.specs.Request.{most_energy};
ghost use Rattle.model.specs.Charge.{drawable};
ghost use Rattle.model.specs.Refusals.{bound_refusals, first_of, out_of_reach};
ghost use Rattle.request.specs.Reach.{unreachable_by};

use crate::bounds::check_bounds;
use crate::refusals::check_that;
use crate::sums::most_energy;
use crate::whole::Whole;
use model::frame::{at_hand, charge_after};
use model::{Refusal, Request};

// Refusal 9, whose P is the amount missing: what is left of the end charge when start and harvest are taken off, one
// after the other until nothing is left.
fn check_reach(whole: Whole) -> Result<(), Refusal>
    ensures { refused result ≡ out_of_reach (asked whole.entry.request) }
{
    let Request { figures, lists } = whole.request;
    let mut missing = figures.end.saturating_sub(figures.start);
    for h in lists.harvest {
        if missing == 0 {
            return Ok(());
        }
        missing = missing.saturating_sub(*h);
    }
    check_that(missing == 0, Refusal::OutOfReach(missing as u64))
}

// Whether the leasts can be drawn as budgets.
fn leasts_drawable(whole: Whole) -> bool
    ensures { result ≡ drawable (asked whole.entry.request) whole.entry.request.lists.least.now }
{
    let Request { figures, lists } = whole.request;
    let mut charge = figures.start;
    for (h, b) in lists.harvest.iter().zip(lists.least) {
        let drawn = *b as u64;
        if at_hand(figures.capacity, charge, *h) < drawn {
            return false;
        }
        charge = charge_after(figures.capacity, charge, *h, drawn);
    }
    figures.end <= charge
}

// Whether no frame has a least: a look at all of them, as at the harvests.
fn none_has_least(least: &[u32]) -> bool
    ensures { result ≡ true → least.now ≡ replicate (length least.now) 0 }
{
    least.iter().fold(true, |none, l| none & (*l == 0))
}

// A store that no charge exceeds: all there is.
pub fn open_store(request: Request) -> u32
    requires { (length request.lists.harvest.now ≤ max_frames) ×
        (most_energy (asked request) ≤ max_capacity + max_harvest * max_frames) }
    ensures { most_energy (asked request.entry) ≤ result }
{
    most_energy(request)
}

// Refusals 9 and 11 where the leasts are within the bounds: 11 is whether they can be drawn. Where there are none, and
// the store can hold the end charge, 9 has said all: what comes in reaches it.
pub fn check_reachable(whole: Whole) -> Result<(), Refusal>
    ensures { refused result ≡ first_of (unreachable_by (asked whole.entry.request) whole.entry.request.lists.least.now) }
{
    check_reach(whole)?;
    let Request { figures, lists } = whole.request;
    if figures.end <= figures.capacity && none_has_least(lists.least) {
        return Ok(());
    }
    check_that(leasts_drawable(whole), Refusal::LeastsOutOfReach)
}

// Refusals 10, 9 and 11. Leasts that 10 lets pass are within the bounds.
pub fn check_bounded(whole: Whole) -> Result<(), Refusal>
    ensures { refused result ≡ first_of (bound_refusals (asked whole.entry.request)) }
{
    check_bounds(whole, 1)?;
    check_reachable(whole)
}

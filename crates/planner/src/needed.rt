// The capacity that a request needs.
ghost use Rattle.std.specs.Prelude.{◌≡◌, true};
ghost use Rattle.model.specs.Answer.{asked, leasts_lent, mosts_lent};
ghost use Rattle.model.specs.Refusals.{is_none, needed_refusal};
ghost use Rattle.model.specs.Plan.{needed_of};
ghost use Rattle.planner.specs.Says.{NeededSays};

use leveller::Task;
use model::{Refusal, Request};
use request::check_needed;

// The greatest of the start, the end and what the frames of the plan without limit ask for; the capacity of the figures
// plays no part.
pub fn needed_capacity(request: Request) -> u64
    requires { is_none (needed_refusal (asked request) (leasts_lent request) (mosts_lent request)) ≡ true }
    ensures { result ≡ needed_of (asked request.entry) }
{
    let figures = request.figures;
    let start = figures.start as u64;
    let end = figures.end as u64;
    let peak = Task::open(request).peak();
    start.max(end.max(peak))
}

// The needed capacity of a request, unless it is refused.
pub fn needed(request: Request) -> Result<u64, Refusal>
    ensures { NeededSays (asked request.entry) (leasts_lent request.entry) (mosts_lent request.entry) result }
{
    check_needed(request)?;
    Ok(needed_capacity(request))
}

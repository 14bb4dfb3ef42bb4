// The refusals of planning, the needed capacity, tracing and a shift's start, each by the list of its definition.
ghost use Rattle.std.specs.Prelude.{◌≡◌, [], ◌∷◌};
ghost use Rattle.model.specs.Answer.{asked, leasts_lent, mosts_lent, refused};
ghost use Rattle.model.specs.Request.{request};
ghost use Rattle.model.specs.Refusals.{first_of, needed_refusal, open_limits, plan_refusal};
ghost use Rattle.model.specs.Refusals.{served_refusals, start_refusal, trace_refusal};

use crate::figures::{check_capacity, check_figures, check_harvest};
use crate::frames::{check_frames, check_length};
use crate::reach::{check_bounded, open_store};
use crate::whole::{Whole, check_lists};
use model::{Figures, Refusal, Request};

// Tracing with lists of so many budgets, charges and losses.
pub fn check_trace(
    figures: Figures,
    harvest: &[u32],
    budgets: usize,
    charges: usize,
    losses: usize,
) -> Result<(), Refusal>
    ensures { refused result ≡ trace_refusal (request figures harvest.now) budgets charges losses }
{
    let frames = harvest.len();
    check_frames(frames)?;
    check_length(frames, budgets)?;
    check_length(frames, charges)?;
    check_length(frames, losses)?;
    check_figures(figures, harvest)
}

// A request that is to be served.
fn check_served(whole: Whole) -> Result<(), Refusal>
    ensures { refused result ≡ first_of (served_refusals (asked whole.entry.request)) }
{
    let Request { figures, lists } = whole.request;
    check_figures(figures, lists.harvest)?;
    check_bounded(whole)
}

// Planning with a list of so many budgets.
pub fn check_plan(request: Request, budgets: usize) -> Result<(), Refusal>
    ensures { refused result ≡ plan_refusal (asked request.entry) (leasts_lent request.entry) (mosts_lent request.entry)
        (budgets ∷ []) }
{
    let whole = check_lists(request)?;
    check_length(request.lists.harvest.len(), budgets)?;
    check_served(whole)
}

// Starting a shift.
pub fn check_start(request: Request) -> Result<(), Refusal>
    ensures { refused result ≡ start_refusal (asked request.entry) (leasts_lent request.entry) (mosts_lent request.entry) }
{
    let whole = check_lists(request)?;
    check_served(whole)
}

// The limits of the needed capacity: start, end and harvests.
fn check_open(figures: Figures, harvest: &[u32]) -> Result<(), Refusal>
    ensures { refused result ≡ first_of (open_limits (request figures harvest.now)) }
{
    check_capacity(figures.start)?;
    check_capacity(figures.end)?;
    check_harvest(harvest, 1)
}

// The needed capacity; that of the figures plays no part. Refusal 11 is without limit: with a store for all there is.
pub fn check_needed(request: Request) -> Result<(), Refusal>
    ensures { refused result ≡ needed_refusal (asked request.entry) (leasts_lent request.entry) (mosts_lent request.entry) }
{
    check_lists(request)?;
    let Request { figures, lists } = request;
    check_open(figures, lists.harvest)?;
    let capacity = open_store(request);
    let figures = Figures {
        capacity,
        ..figures
    };
    check_bounded(Whole {
        request: Request { figures, lists },
    })
}

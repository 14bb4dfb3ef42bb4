// The limits of a request's figures and harvests: refusals 3 to 6.
ghost use Rattle.std.specs.Prelude.{◌≡◌, true, ℕ, ◌≤◌, ◌^◌};
ghost use Rattle.model.specs.Answer.{refused};
ghost use Rattle.model.specs.Request.{request};
ghost use Rattle.model.specs.Refusals.{figure_refusals, first_of, harvest_over_limit, none, over_capacity_limit};

use crate::refusals::check_that;
use model::limits::{MAX_CAPACITY, MAX_HARVEST};
use model::{Figures, Refusal};

// Refusal 3 of one figure.
pub fn check_capacity(figure: u32) -> Result<(), Refusal>
    ensures { refused result ≡ over_capacity_limit figure }
{
    check_that(figure <= MAX_CAPACITY, Refusal::CapacityAboveLimit)
}

// Whether every harvest is within the limit: a look at all of them, without a branch, which takes a fraction of the
// time that finding the first one above it takes.
fn all_within(harvest: &[u32]) -> bool
    ensures { result ≡ true → (k : ℕ) → harvest_over_limit k harvest.now ≡ none }
{
    harvest
        .iter()
        .fold(true, |within, h| within & (*h <= MAX_HARVEST))
}

// Refusal 6, whose P is the earliest frame with a harvest above the limit; the list begins with frame number first.
pub fn check_harvest(harvest: &[u32], first: u64) -> Result<(), Refusal>
    requires { first ≤ 2 ^ 32 }
    ensures { refused result ≡ harvest_over_limit first harvest.now }
{
    if all_within(harvest) {
        return Ok(());
    }
    match harvest.iter().position(|h| *h > MAX_HARVEST) {
        Some(i) => Err(Refusal::HarvestAboveLimit(first + i as u64)),
        None => Ok(()),
    }
}

// Refusals 3 to 6 of figures and harvests.
pub fn check_figures(figures: Figures, harvest: &[u32]) -> Result<(), Refusal>
    ensures { refused result ≡ first_of (figure_refusals (request figures harvest.now)) }
{
    check_capacity(figures.capacity)?;
    check_that(
        figures.start <= figures.capacity,
        Refusal::StartAboveCapacity,
    )?;
    check_that(figures.end <= figures.capacity, Refusal::EndAboveCapacity)?;
    check_harvest(harvest, 1)
}

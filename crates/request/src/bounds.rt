// The limits of a request's leasts and mosts: refusal 10.
ghost use Rattle.std.specs.Prelude.{◌≡◌, true, ℕ, ◌≤◌, ◌^◌, length};
ghost use Rattle.model.specs.Answer.{asked, refused};
ghost use Rattle.model.specs.Request.{bounds, bounds_of};
ghost use Rattle.model.specs.Refusals.{bad_bounds, bounds_refused, none};

use crate::whole::Whole;
use model::limits::{MAX_BOUND, NO_UPPER_END};
use model::{Lists, Refusal};

// Whether no frame may have these bounds: the least above the most, or either above its limit. By `|` and `&`, which
// make no branch.
fn bad_bounds(least: u32, most: u32) -> bool
    ensures { result ≡ bad_bounds (bounds least most) }
{
    (least > most) | (least > MAX_BOUND) | ((most > MAX_BOUND) & (most != NO_UPPER_END))
}

// Whether the bounds of every frame are good: a look at all of them, as at the harvests.
fn all_good(least: &[u32], most: &[u32]) -> bool
    requires { length least.now ≡ length most.now }
    ensures { result ≡ true → (k : ℕ) → bounds_refused k (bounds_of least.now most.now) ≡ none }
{
    least
        .iter()
        .zip(most)
        .fold(true, |good, (l, m)| good & !bad_bounds(*l, *m))
}

// Refusal 10, whose P is the earliest frame with such bounds; the lists begin with frame number first.
pub fn check_bounds(whole: Whole, first: u64) -> Result<(), Refusal>
    requires { first ≤ 2 ^ 32 }
    ensures { refused result ≡ bounds_refused first (asked whole.entry.request).bounds }
{
    let Lists { least, most, .. } = whole.request.lists;
    if all_good(least, most) {
        return Ok(());
    }
    match least.iter().zip(most).position(|(l, m)| bad_bounds(*l, *m)) {
        Some(i) => Err(Refusal::BadBounds(first + i as u64)),
        None => Ok(()),
    }
}

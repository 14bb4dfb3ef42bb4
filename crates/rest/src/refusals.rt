// The refusals of planning the rest and of returning its part, as their lists in the definitions have them.
ghost use Rattle.std.specs.Prelude.{◌≡◌, [], ◌∷◌};
ghost use Rattle.model.specs.Answer.{refused};
ghost use Rattle.model.specs.Refusals.{first_of};
ghost use Rattle.rest.specs.Rest.{lent, length_refusals, part_refusal, rest_refusal};

use crate::Outlook;
use crate::rest_request::rest_request;
use model::Refusal;
use request::{check_bounds, check_harvest, check_length};
use shift::Shift;

// Returning the part that is left of so many budgets.
pub fn check_part(shift: Shift, budgets: usize) -> Result<(), Refusal>
    ensures { refused result ≡ part_refusal shift budgets }
{
    shift.check_shift()?;
    check_length(shift.terms.frames as usize, budgets)?;
    shift.check_left()
}

// The lengths of an outlook of so many frames, and so many budgets.
fn check_lengths(frames: usize, outlook: Outlook, budgets: usize) -> Result<(), Refusal>
    ensures { refused result ≡ first_of (length_refusals frames (lent outlook.entry) (budgets ∷ [])) }
{
    check_length(frames, outlook.harvest.len())?;
    check_length(frames, outlook.wanted.least.len())?;
    check_length(frames, outlook.wanted.most.len())?;
    check_length(frames, budgets)
}

// Planning the rest into so many budgets.
pub fn check_rest(shift: Shift, outlook: Outlook, budgets: usize) -> Result<(), Refusal>
    ensures { refused result ≡ rest_refusal shift (lent outlook.entry) (budgets ∷ []) }
{
    shift.check_shift()?;
    check_lengths(shift.terms.frames as usize, outlook, budgets)?;
    shift.check_left()?;
    let whole = rest_request(shift, outlook);
    let first = shift.now.recorded as u64 + 1;
    check_harvest(whole.request.lists.harvest, first)?;
    check_bounds(whole, first)
}

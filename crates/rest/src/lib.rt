// The rest of a shift: planned anew at any time, and the part of the budgets that is left.
#![tactic(auto, using(model::proofs::Answer::told_some))]

ghost use Rattle.rest.specs.Rest.{lent};
ghost use Rattle.rest.specs.Says.{PartIs, RestSays, part_as};

use crate::refusals::{check_part, check_rest};
use crate::rest_request::rest_request;
use model::Refusal;
use shift::Shift;

mod fill;
mod outlook;
mod refusals;
mod rest_request;

pub use outlook::{Outlook, Wanted};

// How planning the rest ends; short comes with what zero budgets miss of the end charge, which may be nothing. No
// Option: C and the definitions have both names, and `None` would have to mean that it is planned.
#[derive(Clone, Copy, PartialEq, Eq, Debug)]
pub enum Rest {
    Planned,
    Short(u64),
}

// Plans the rest of a shift by an outlook. The unrecorded part of the budgets is lent on, to be filled with the
// plan, or with zeros where the rest is short.
pub fn plan_rest(shift: Shift, outlook: Outlook, budgets: &mut [u32]) -> Result<Rest, Refusal>
    ensures { RestSays shift (lent outlook.entry) budgets.old budgets.new result }
{
    check_rest(shift, outlook, budgets.len())?;
    let whole = rest_request(shift, outlook);
    Ok(fill::fill(whole, &mut budgets[shift.now.recorded as usize..]))
}

// The part of the budgets that begins at the next frame, lying where they lie.
pub fn rest_part<'a>(shift: Shift, budgets: &'a [u32]) -> Result<&'a [u32], Refusal>
    ensures { PartIs shift budgets.now budgets.entry.ref_ptr (part_as budgets.entry.ref_ptr result) }
{
    check_part(shift, budgets.len())?;
    Ok(&budgets[shift.now.recorded as usize..])
}

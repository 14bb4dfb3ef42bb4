// The tracer: the charge after each frame of any supplied budgets, below zero included, what each frame loses, and the
// verdict on the budgets.
#![tactic(auto, using(model::proofs::Answer::told_some))]

ghost use Rattle.model.specs.Request.{request};
ghost use Rattle.tracer.specs.Says.{TraceSays};

use model::{Figures, Refusal};

mod recurrence;
mod verdicts;

pub use recurrence::fill;

// The verdict on budgets. A frame below zero has its number, counted from 1.
#[derive(Clone, Copy, PartialEq, Eq, Debug)]
pub enum Verdict {
    Feasible,
    EndTooLow,
    BelowZero(u32),
}

// Writes the charge after each frame of the budgets and what the frame loses, and gives the verdict. A refusal alters
// nothing. Figures and harvest stay two parameters: C lends them so, without the bounds of a `Request`; charges and
// losses too, each a list that C has for itself.
pub fn trace(
    figures: Figures,
    harvest: &[u32],
    budgets: &[u32],
    charges: &mut [i64],
    losses: &mut [u32],
) -> Result<Verdict, Refusal>
    ensures { TraceSays (request figures harvest.now) budgets.now charges.old
        charges.new losses.old losses.new result }
{
    request::check_trace(figures, harvest, budgets.len(), charges.len(), losses.len())?;
    recurrence::fill(figures, harvest, budgets, charges, losses);
    Ok(verdicts::judge(figures, charges))
}

// The plan of a request.
ghost use Rattle.std.specs.Prelude.{◌≡◌, true, [], ◌∷◌, length};
ghost use Rattle.model.specs.Answer.{asked, leasts_lent, mosts_lent};
ghost use Rattle.model.specs.Refusals.{is_none, plan_refusal};
ghost use Rattle.model.specs.Plan.{plan_of};
ghost use Rattle.planner.specs.Says.{PlanSays};

use leveller::Task;
use model::{Refusal, Request};
use request::check_plan;

// Writes the plan of a request that is not refused.
pub fn write_plan(request: Request, budgets: &mut [u32])
    requires { is_none (plan_refusal (asked request) (leasts_lent request) (mosts_lent request)
        (length budgets.old ∷ [])) ≡ true }
    ensures { budgets.new ≡ plan_of (asked request.entry) }
{
    Task::of(request).plan_into(budgets);
}

// Writes the plan of a request; one that is refused leaves the budgets as they are.
pub fn plan(request: Request, budgets: &mut [u32]) -> Result<(), Refusal>
    ensures { PlanSays (asked request.entry) (leasts_lent request.entry) (mosts_lent request.entry)
        budgets.old budgets.new result }
{
    check_plan(request, budgets.len())?;
    write_plan(request, budgets);
    Ok(())
}

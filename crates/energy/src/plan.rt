// The plan of a request, for C.
ghost use Rattle.std.specs.Prelude.{length};
ghost use Rattle.model.specs.Request.{bounded_request};
ghost use Rattle.planner.specs.Says.{PlanSays};
ghost use Rattle.energy.specs.Through.{Through};
ghost use Rattle.answers.specs.Flat.{plan_flat};

use answers::EnergyPlanAnswer;
use model::{Figures, Lists, Request};
use planner::plan::plan;

// Writes the plan into the budgets.
#[unsafe(no_mangle)]
pub extern "C" fn energy_plan(
    figures: Figures,
    harvest: &[u32],
    least: &[u32],
    most: &[u32],
    budgets: &mut [u32],
) -> EnergyPlanAnswer
    ensures { Through
        (PlanSays (bounded_request figures harvest.now least.now most.now)
        (length least.now) (length most.now) budgets.old budgets.new)
        plan_flat result }
{
    // C lends each list for itself, so the request is put together here, and in each call that takes one.
    let lists = Lists {
        harvest,
        least,
        most,
    };
    plan(Request { figures, lists }, budgets).into()
}

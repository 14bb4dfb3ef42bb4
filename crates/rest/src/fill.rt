// The budgets of the rest, written into the part that is lent on.
ghost use Rattle.std.specs.Prelude.{◌≡◌, length};
ghost use Rattle.model.specs.Answer.{asked};
ghost use Rattle.rest.specs.Rest.{Fillable, ending_of, rest_budgets};
ghost use Rattle.rest.specs.Says.{ended};

use crate::Rest;
use leveller::Task;
use request::{Whole, check_reachable};

// Writes the plan, or zeros where by refusal 9 or 11 there is none. What zeros miss of the end charge is P of that
// refusal.
pub fn fill(whole: Whole, budgets: &mut [u32]) -> Rest
    requires fillable { Fillable (asked whole.request) }
    requires budgets_len { length budgets.old ≡ length whole.request.lists.harvest.now }
    ensures ending { ended result ≡ ending_of (asked whole.entry.request) }
    ensures written { budgets.new ≡ rest_budgets (asked whole.entry.request) }
{
    if let Err(unreachable) = check_reachable(whole) {
        let missing = unreachable.p();
        budgets.fill(0);
        return Rest::Short(missing);
    }
    Task::of(whole.request).plan_into(budgets);
    Rest::Planned
}

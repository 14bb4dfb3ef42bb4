// Grading: what a list of budgets is worth on each of the three house curves.
#![tactic(auto, using(model::proofs::Answer::told_some))]

ghost use Rattle.std.specs.Prelude.{◌≡◌, ◌≤◌, length};
ghost use Rattle.model.specs.Limits.{max_frames};
ghost use Rattle.grader.specs.Says.{sums_of, GradeSays};

mod curves;

use curves::{CURVE_0, CURVE_1, CURVE_2};
use model::Refusal;

// The sums over a list of budgets on curves 0, 1 and 2. Three fields and no array, since C has them by these names.
#[repr(C)]
#[derive(Clone, Copy, Default, PartialEq, Eq, Debug)]
pub struct Sums {
    pub curve0: u64,
    pub curve1: u64,
    pub curve2: u64,
}

// The three sums of no more budgets than a request has frames: a clause here and in `Curve::grade`, and no type, since
// the check just before the call tells it of a list that is lent, and the list is used this once.
pub fn sums_of(budgets: &[u32]) -> Sums
    requires { length budgets.now ≤ max_frames }
    ensures { result ≡ sums_of budgets.now }
{
    Sums {
        curve0: CURVE_0.grade(budgets),
        curve1: CURVE_1.grade(budgets),
        curve2: CURVE_2.grade(budgets),
    }
}

// The three sums of a list of budgets, one budget for each frame.
pub fn grade(budgets: &[u32]) -> Result<Sums, Refusal>
    ensures { GradeSays budgets.now result }
{
    request::check_frames(budgets.len())?;
    Ok(sums_of(budgets))
}

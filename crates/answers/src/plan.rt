// The planner's answer, for C.
use crate::EnergyRefusal;
use model::Refusal;

// The refusal alone: the plan is in the budgets.
#[repr(C)]
#[derive(Clone, Copy)]
pub struct EnergyPlanAnswer {
    pub refusal: EnergyRefusal,
}

impl From<Result<(), Refusal>> for EnergyPlanAnswer {
    ghost use Rattle.std.specs.Prelude.{◌≡◌};
    ghost use Rattle.answers.specs.Flat.{plan_flat};

    ghost from_gives = { λ answer flat. flat ≡ plan_flat answer };

    fn from(answer: Result<(), Refusal>) -> EnergyPlanAnswer {
        EnergyPlanAnswer {
            refusal: EnergyRefusal::of(&answer),
        }
    }
}

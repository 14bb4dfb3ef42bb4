// The grader's answer, for C.
use crate::EnergyRefusal;
use grader::Sums;
use model::Refusal;

// The sums of the three curves.
#[repr(C)]
#[derive(Clone, Copy)]
pub struct EnergyGradeAnswer {
    pub refusal: EnergyRefusal,
    pub sums: Sums,
}

impl From<Result<Sums, Refusal>> for EnergyGradeAnswer {
    ghost use Rattle.std.specs.Prelude.{◌≡◌};
    ghost use Rattle.answers.specs.Flat.{grade_flat};

    ghost from_gives = { λ answer flat. flat ≡ grade_flat answer };

    fn from(answer: Result<Sums, Refusal>) -> EnergyGradeAnswer {
        EnergyGradeAnswer {
            refusal: EnergyRefusal::of(&answer),
            sums: answer.unwrap_or_default(),
        }
    }
}

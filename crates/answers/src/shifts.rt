// The answers with a shift, for C.
use crate::EnergyRefusal;
use model::Refusal;
use shift::Shift;

// The shift that is handed over.
#[repr(C)]
#[derive(Clone, Copy)]
pub struct EnergyShiftAnswer {
    pub refusal: EnergyRefusal,
    pub shift: Shift,
}

// A shift that is started; beside a refusal zeros.
impl From<Result<Shift, Refusal>> for EnergyShiftAnswer {
    ghost use Rattle.std.specs.Prelude.{◌≡◌};
    ghost use Rattle.shift.specs.Says.{started_as};
    ghost use Rattle.answers.specs.Flat.{shift_flat};

    ghost from_gives = { λ answer flat. flat ≡ shift_flat (started_as answer) };

    fn from(answer: Result<Shift, Refusal>) -> EnergyShiftAnswer {
        EnergyShiftAnswer {
            refusal: EnergyRefusal::of(&answer),
            shift: answer.unwrap_or_default(),
        }
    }
}

impl EnergyShiftAnswer {
    ghost use Rattle.std.specs.Prelude.{◌≡◌};
    ghost use Rattle.shift.specs.Says.{recorded_as};
    ghost use Rattle.answers.specs.Flat.{shift_flat};

    // A shift that is recorded; beside a refusal the shift as it was.
    pub fn recorded(before: Shift, answer: Result<Shift, Refusal>) -> EnergyShiftAnswer
        ensures { result ≡ shift_flat (recorded_as before answer) }
    {
        EnergyShiftAnswer {
            refusal: EnergyRefusal::of(&answer),
            shift: answer.unwrap_or(before),
        }
    }
}

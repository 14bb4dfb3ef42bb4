// A refusal, for C.
ghost use Rattle.std.specs.Prelude.{◌≡◌};

use model::Refusal;

// A refusal's number and its P; zeros where nothing is refused.
#[repr(C)]
#[derive(Clone, Copy, Default, PartialEq, Eq, Debug)]
pub struct EnergyRefusal {
    pub number: u32,
    pub p: u64,
}

impl From<Refusal> for EnergyRefusal {
    ghost use Rattle.std.specs.Prelude.{◌≡◌};
    ghost use Rattle.model.specs.Answer.{told};
    ghost use Rattle.answers.specs.Refusal.{refusal_flat};

    ghost from_gives = { λ e r. r ≡ refusal_flat (told e) };

    fn from(refusal: Refusal) -> EnergyRefusal {
        EnergyRefusal {
            number: refusal.number(),
            p: refusal.p(),
        }
    }
}

impl EnergyRefusal {
    ghost use Rattle.model.specs.Answer.{refused};
    ghost use Rattle.answers.specs.Refusal.{refusal_flat};

    // The refusal of an answer; zeros where it gives a value.
    pub fn of<T>(answer: &Result<T, Refusal>) -> EnergyRefusal
        ensures { result ≡ refusal_flat (refused answer.now) }
    {
        match answer {
            Ok(_) => EnergyRefusal::default(),
            Err(refusal) => EnergyRefusal::from(*refusal),
        }
    }
}

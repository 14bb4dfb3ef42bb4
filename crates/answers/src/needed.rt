// The needed capacity, for C.
use crate::EnergyRefusal;
use model::Refusal;

// The needed capacity.
#[repr(C)]
#[derive(Clone, Copy)]
pub struct EnergyNeededAnswer {
    pub refusal: EnergyRefusal,
    pub capacity: u64,
}

impl From<Result<u64, Refusal>> for EnergyNeededAnswer {
    ghost use Rattle.std.specs.Prelude.{◌≡◌};
    ghost use Rattle.answers.specs.Flat.{needed_flat};

    ghost from_gives = { λ answer flat. flat ≡ needed_flat answer };

    fn from(answer: Result<u64, Refusal>) -> EnergyNeededAnswer {
        EnergyNeededAnswer {
            refusal: EnergyRefusal::of(&answer),
            capacity: answer.unwrap_or_default(),
        }
    }
}

// The answer of planning the rest, for C.
use crate::EnergyRefusal;
use model::Refusal;
use rest::Rest;

// Whether the rest is short, 1 if so, and the missing amount.
#[repr(C)]
#[derive(Clone, Copy)]
pub struct EnergyRestAnswer {
    pub refusal: EnergyRefusal,
    pub is_short: u32,
    pub missing: u64,
}

impl From<Result<Rest, Refusal>> for EnergyRestAnswer {
    ghost use Rattle.std.specs.Prelude.{◌≡◌};
    ghost use Rattle.answers.specs.Flat.{rest_flat};

    ghost from_gives = { λ answer flat. flat ≡ rest_flat answer };

    fn from(answer: Result<Rest, Refusal>) -> EnergyRestAnswer {
        let (is_short, missing) = match answer {
            Ok(Rest::Short(missing)) => (true, missing),
            Ok(Rest::Planned) | Err(_) => (false, 0),
        };
        EnergyRestAnswer {
            refusal: EnergyRefusal::of(&answer),
            is_short: is_short as u32,
            missing,
        }
    }
}

// The tracer's answer, for C.
use crate::EnergyRefusal;
use model::Refusal;
use tracer::Verdict;

// The verdict, and the frame that it names; 0 where it names none.
#[repr(C)]
#[derive(Clone, Copy)]
pub struct EnergyTraceAnswer {
    pub refusal: EnergyRefusal,
    pub verdict: u32,
    pub frame: u32,
}

// The verdicts' numbers.
#[derive(Clone, Copy)]
enum Number {
    Feasible = 0,
    EndTooLow = 1,
    BelowZero = 2,
}

impl From<Result<Verdict, Refusal>> for EnergyTraceAnswer {
    ghost use Rattle.std.specs.Prelude.{◌≡◌};
    ghost use Rattle.answers.specs.Flat.{trace_flat};

    ghost from_gives = { λ answer flat. flat ≡ trace_flat answer };

    fn from(answer: Result<Verdict, Refusal>) -> EnergyTraceAnswer {
        let (number, frame) = match answer {
            Ok(Verdict::Feasible) | Err(_) => (Number::Feasible, 0),
            Ok(Verdict::EndTooLow) => (Number::EndTooLow, 0),
            Ok(Verdict::BelowZero(frame)) => (Number::BelowZero, frame),
        };
        EnergyTraceAnswer {
            refusal: EnergyRefusal::of(&answer),
            verdict: number as u32,
            frame,
        }
    }
}

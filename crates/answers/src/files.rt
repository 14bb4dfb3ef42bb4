// The answers of reading and writing a word file, for C.
use crate::EnergyRefusal;
use model::Refusal;
use wordfile::Header;

// The figures of the file, and the number of its harvests.
#[repr(C)]
#[derive(Clone, Copy)]
pub struct EnergyReadAnswer {
    pub refusal: EnergyRefusal,
    pub header: Header,
}

impl From<Result<Header, Refusal>> for EnergyReadAnswer {
    ghost use Rattle.std.specs.Prelude.{◌≡◌};
    ghost use Rattle.answers.specs.Flat.{read_flat};

    ghost from_gives = { λ answer flat. flat ≡ read_flat answer };

    fn from(answer: Result<Header, Refusal>) -> EnergyReadAnswer {
        EnergyReadAnswer {
            refusal: EnergyRefusal::of(&answer),
            header: answer.unwrap_or_default(),
        }
    }
}

// The number of bytes written.
#[repr(C)]
#[derive(Clone, Copy)]
pub struct EnergyWriteAnswer {
    pub refusal: EnergyRefusal,
    pub bytes: usize,
}

impl From<Result<usize, Refusal>> for EnergyWriteAnswer {
    ghost use Rattle.std.specs.Prelude.{◌≡◌};
    ghost use Rattle.answers.specs.Flat.{write_flat};

    ghost from_gives = { λ answer flat. flat ≡ write_flat answer };

    fn from(answer: Result<usize, Refusal>) -> EnergyWriteAnswer {
        EnergyWriteAnswer {
            refusal: EnergyRefusal::of(&answer),
            bytes: answer.unwrap_or_default(),
        }
    }
}

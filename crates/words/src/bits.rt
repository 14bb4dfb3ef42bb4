// A word taken apart at bit N and put together: a tag from that bit on, and the rest below it. That N is below 32 is a
// clause of each of the three: a const parameter has a type, u32, and no bound, and no type holds it otherwise.
ghost use Rattle.std.specs.Prelude.{◌≡◌, ◌+◌, ◌*◌, ◌/◌, ◌%◌, ◌^◌, ◌<◌};

// The bits of a word from bit N on.
pub fn tag<const N: u32>(word: u32) -> u32
    requires { N < 32 }
    ensures { result ≡ word / 2 ^ N }
{
    word >> N
}

// The bits of a word below bit N.
#[tactic(auto, using(crate::proofs::Masks::mask_is))]
pub fn rest<const N: u32>(word: u32) -> u32
    requires { N < 32 }
    ensures { result ≡ word % 2 ^ N }
{
    word & ((1 << N) - 1)
}

// The word of a tag and a rest.
#[tactic(auto, using(crate::proofs::Masks::tagged_is))]
pub fn tagged<const N: u32>(tag: u32, rest: u32) -> u32
    requires bit { N < 32 }
    requires rest { rest < 2 ^ N }
    requires word { tag * 2 ^ N + rest < 2 ^ 32 }
    ensures { result ≡ tag * 2 ^ N + rest }
{
    (tag << N) | rest
}

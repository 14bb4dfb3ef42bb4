// Numbers cut to 32 bits.
ghost use Rattle.std.specs.Prelude.{◌≡◌, ◌%◌, ◌^◌};

// The low 32 bits: what does not fit is cut, so a guess that keeps levels and heights in a list may be wrong then.
pub fn low_bits(x: u64) -> u32
    ensures { result ≡ x % 2 ^ 32 }
{
    (x % 4294967296) as u32
}

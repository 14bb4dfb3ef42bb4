// The words of a word file: what each says, and its four bytes, the lowest first.
ghost use Rattle.std.specs.Prelude.{◌≡◌, ◌/◌, ◌<◌, length, get_or};
ghost use Rattle.words.specs.Words.{words_of};
ghost use Rattle.words.specs.Spelt.{Fits, Found, Spells, spelt};

use crate::bits::{rest, tag, tagged};

// A word: a figure, a frame's harvest, its least or its most, or the count of frames that ends a file.
#[derive(Clone, Copy, PartialEq, Eq, Debug)]
pub enum Word {
    Figure(u32),
    Harvest(u32),
    Least(u32),
    Most(u32),
    End(u32),
}

impl From<u32> for Word {
    ghost from_gives = { λ bits word. Spells word bits };

    fn from(bits: u32) -> Word {
        // no kind of word comes more often than a harvest, so these are looked for first
        if tag::<30>(bits) == 1 {
            return Word::Harvest(rest::<30>(bits));
        }
        match tag::<29>(bits) {
            0 | 1 => Word::Figure(rest::<30>(bits)),
            4 => Word::Least(rest::<29>(bits)),
            5 => Word::Most(rest::<29>(bits)),
            _ => Word::End(rest::<30>(bits)),
        }
    }
}

impl Word {
    // The 32 bits of a word. No `From`, which could not ask that the value fits beside the kind.
    pub fn bits(self) -> u32
        requires { Fits self }
        ensures { result ≡ spelt self }
    {
        match self {
            Word::Figure(value) => tagged::<30>(0, value),
            Word::Harvest(value) => tagged::<30>(1, value),
            Word::Least(amount) => tagged::<29>(4, amount),
            Word::Most(amount) => tagged::<29>(5, amount),
            Word::End(count) => tagged::<30>(3, count),
        }
    }
}

// Word number i of a list of bytes, as a number.
pub fn nth(bytes: &[u8], i: usize) -> u32
    requires { i < length bytes.now / 4 }
    ensures { result ≡ get_or (words_of bytes.now) i 0 }
{
    let at = 4 * i;
    u32::from_le_bytes([bytes[at], bytes[at + 1], bytes[at + 2], bytes[at + 3]])
}

// Word number i of a list of bytes; none where the list has no more words.
#[tactic(auto, using(crate::proofs::Bytes::words_length))]
pub fn get(bytes: &[u8], i: usize) -> Option<Word>
    ensures { Found (words_of bytes.now) i result }
{
    if i < bytes.len() / 4 {
        Some(Word::from(nth(bytes, i)))
    } else {
        None
    }
}

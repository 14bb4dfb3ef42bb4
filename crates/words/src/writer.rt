// Words put into a lent list of bytes, one behind the other.
ghost use Rattle.std.specs.Prelude.{◌≡◌, [], ◌∷◌, ◌+◌, ◌≤◌, length};
ghost use Rattle.model.specs.Lent.{over_at};
ghost use Rattle.words.specs.Words.{word_bytes};
ghost use Rattle.words.specs.Spelt.{Fits, spelt};
ghost use Rattle.words.specs.Puts.{Wrote};

use crate::word::Word;

// A lent list, and the place behind the words put into it: with no heap, the list is the caller's and of fixed length,
// and no Vec keeps the place. Not text's `Page`, which cuts off what has no room: a word is put whole, so room is asked.
#[derive(Drop)]
pub struct Writer<'a> {
    pub out: &'a mut [u8],
    pub at: usize,
}

// Stores the four bytes of a word's number. A function of its own, in which the compiler makes one store of the four.
#[tactic(auto, using(crate::proofs::Words::put_is))]
fn put_bytes(bits: u32, out: &mut [u8], at: usize)
    requires { at + 4 ≤ length out.old }
    ensures { out.new ≡ over_at at (word_bytes bits) out.old }
{
    let [a, b, c, d] = bits.to_le_bytes();
    out[at] = a;
    out[at + 1] = b;
    out[at + 2] = c;
    out[at + 3] = d;
}

impl Writer<'_> {
    // Puts a word behind those before it.
    pub fn put(&mut self, word: Word)
        requires fits { Fits word }
        requires room { self.old.at + 4 ≤ length self.old.out.now }
        ensures { Wrote (spelt word ∷ []) self.old self.new }
    {
        put_bytes(word.bits(), self.out, self.at);
        self.at += 4;
    }
}

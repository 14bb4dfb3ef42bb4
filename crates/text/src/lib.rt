// Text written into a lent list, piece by piece, as much of it as there is room for.
#![tactic(auto)]

ghost use Rattle.std.specs.Prelude.{◌≡◌, [], ◌∷◌};
ghost use Rattle.text.specs.Decimal.{decimal};
ghost use Rattle.text.specs.Line.{line_of};

// A lent list that is written on, and the place behind what is written: with no heap, the list is the caller's, and of
// fixed length, so no Vec keeps the place. Not words' `Writer`, which asks for room: a page cuts off what has none.
#[derive(Drop)]
pub struct Page<'a> {
    pub out: &'a mut [u8],
    pub at: usize,
}

impl<'a> Page<'a> {
    ghost use Rattle.text.specs.Page.{Adds};

    // A page with nothing written yet.
    pub fn of(out: &'a mut [u8]) -> Page<'a>
        ensures same_list { result.out.ghost_name ≡ out.entry.ghost_name }
        ensures as_lent { result.out.now ≡ out.old }
        ensures nothing { result.at ≡ 0 }
    {
        Page { out, at: 0 }
    }

    // How many bytes are written.
    pub fn written(&self) -> usize
        ensures { result ≡ self.now.at }
    {
        self.at
    }

    // Writes a byte on, if there is room for it.
    fn put_byte(&mut self, byte: u8)
        ensures { Adds (byte ∷ []) self.old self.new }
    {
        if self.at < self.out.len() {
            self.out[self.at] = byte;
            self.at += 1;
        }
    }

    // Writes a text on, as much of it as there is room for. Byte by byte: `copy_from_slice` is the C library's memcpy,
    // which nothing else here wants.
    fn put(&mut self, text: &[u8])
        ensures { Adds text.now self.old self.new }
    {
        for &byte in text {
            self.put_byte(byte);
        }
    }

    // Writes a number on in decimal digits.
    fn put_number(&mut self, n: u64)
        ensures { Adds (decimal n) self.old self.new }
    {
        // io::decimal writes into 20 bytes, the digits of the largest u64; there is no heap to write into.
        let mut digits = [0u8; 20];
        let k = io::decimal(n, &mut digits);
        self.put(&digits[..k]);
    }

    // Writes on the line of a pattern: the next figure in place of each #.
    pub fn put_line(&mut self, pattern: &[u8], figures: &[u64])
        ensures { Adds (line_of pattern.now figures.now) self.old self.new }
    {
        let mut left = figures.iter();
        for &byte in pattern {
            if byte == b'#' {
                if let Some(&n) = left.next() {
                    self.put_number(n);
                    continue;
                }
            }
            self.put_byte(byte);
        }
    }
}

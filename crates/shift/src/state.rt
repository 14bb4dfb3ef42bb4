// Whether a record is a shift's.
ghost use Rattle.std.specs.Prelude.{◌≡◌};
ghost use Rattle.shift.specs.Shift.{are_terms, balances, is_present, is_shift};

use crate::{Present, Shift, Terms, Totals};
use model::limits::{MAX_CAPACITY, MAX_FRAMES, MAX_HARVEST};

impl Terms {
    // Whether the terms are within their limits.
    fn are_terms(self) -> bool
        ensures { result ≡ are_terms self }
    {
        self.frames >= 1
            && self.frames as usize <= MAX_FRAMES
            && self.capacity <= MAX_CAPACITY
            && self.start <= self.capacity
            && self.end <= self.capacity
    }
}

impl Present {
    // Whether start and harvested equal charge, used and lost. In 128 bits no sum wraps.
    fn balances(self, terms: Terms) -> bool
        ensures { result ≡ balances terms self }
    {
        let Totals {
            harvested,
            used,
            lost,
        } = self.totals;
        terms.start as u128 + harvested as u128 == self.charge as u128 + used as u128 + lost as u128
    }

    // Whether a shift of these terms can stand so.
    fn is_present(self, terms: Terms) -> bool
        ensures { result ≡ is_present terms self }
    {
        self.recorded <= terms.frames
            && self.charge <= terms.capacity
            && self.totals.harvested <= MAX_HARVEST as u64 * self.recorded as u64
            && self.balances(terms)
    }
}

impl Shift {
    // Whether the record is a shift's: no to each part of refusal 22.
    pub(crate) fn is_shift(self) -> bool
        ensures { result ≡ is_shift self }
    {
        self.terms.are_terms() && self.now.is_present(self.terms)
    }
}

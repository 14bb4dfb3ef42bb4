// Refusals 22, 20 and 21, and recording's, as its list in the definitions has them.
ghost use Rattle.std.specs.Prelude.{◌≡◌};
ghost use Rattle.model.specs.Answer.{refused};
ghost use Rattle.shift.specs.Shift.{all_recorded, not_shift, record_refusal, use_too_great};

use crate::{Shift, Typed};
use model::Refusal;
use model::frame::at_hand;
use request::{check_harvest, check_that};

impl Shift {
    // Refusal 22.
    pub fn check_shift(self) -> Result<(), Refusal>
        ensures { refused result ≡ not_shift self }
    {
        check_that(self.is_shift(), Refusal::NotShift)
    }

    // Refusal 20.
    pub fn check_left(self) -> Result<(), Refusal>
        ensures { refused result ≡ all_recorded self.terms self.now }
    {
        check_that(self.now.recorded != self.terms.frames, Refusal::AllRecorded)
    }

    // Refusal 21.
    fn check_use(self, typed: Typed) -> Result<(), Refusal>
        ensures { refused result ≡ use_too_great self.terms self.now typed }
    {
        let have = at_hand(self.terms.capacity, self.now.charge, typed.harvest);
        let drawn = typed.drawn();
        check_that(
            drawn <= have,
            Refusal::UseTooGreat(drawn.saturating_sub(have)),
        )
    }

    // Recording. The harvest is looked at as a list of one.
    pub(crate) fn check_record(self, typed: Typed) -> Result<(), Refusal>
        ensures { refused result ≡ record_refusal self typed }
    {
        self.check_shift()?;
        self.check_left()?;
        check_harvest(&[typed.harvest], self.now.recorded as u64 + 1)?;
        self.check_use(typed)
    }
}

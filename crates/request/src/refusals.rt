// The one step that all checks are made of.
ghost use Rattle.std.specs.Prelude.{◌≡◌};
ghost use Rattle.model.specs.Answer.{refused, told};
ghost use Rattle.model.specs.Choice.{pick};
ghost use Rattle.model.specs.Refusals.{none};

use model::Refusal;

// Refused where the test fails.
pub fn check_that(holds: bool, refusal: Refusal) -> Result<(), Refusal>
    ensures { refused result ≡ pick holds none (told refusal) }
{
    if holds { Ok(()) } else { Err(refusal) }
}

// Refusals 1, 2 and 7: how many frames there are, and whether a lent list has one entry for each.
ghost use Rattle.std.specs.Prelude.{◌≡◌};
ghost use Rattle.model.specs.Answer.{refused};
ghost use Rattle.model.specs.Refusals.{first_of, frames_refusals, lent_refusals, wrong_length};

use crate::refusals::check_that;
use model::Refusal;
use model::limits::MAX_FRAMES;

// Refusals 1 and 2 of a number of frames.
pub fn check_frames(frames: usize) -> Result<(), Refusal>
    ensures { refused result ≡ first_of (frames_refusals frames) }
{
    check_that(frames != 0, Refusal::NoFrames)?;
    check_that(frames <= MAX_FRAMES, Refusal::TooManyFrames)
}

// Refusal 7 of a lent list with this length.
pub fn check_length(frames: usize, length: usize) -> Result<(), Refusal>
    ensures { refused result ≡ wrong_length frames length }
{
    check_that(length == frames, Refusal::WrongLength)
}

// A number of frames with lists of so many leasts and mosts.
pub fn check_lent(frames: usize, least: usize, most: usize) -> Result<(), Refusal>
    ensures { refused result ≡ first_of (lent_refusals frames least most) }
{
    check_frames(frames)?;
    check_length(frames, least)?;
    check_length(frames, most)
}

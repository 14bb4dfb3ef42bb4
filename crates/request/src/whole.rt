// Requests whose lists have one length.
ghost use Rattle.std.specs.Prelude.{◌≡◌, ◌≤◌, length, IfOk};
ghost use Rattle.model.specs.Answer.{leasts_lent, mosts_lent, refused};
ghost use Rattle.model.specs.Limits.{max_frames};
ghost use Rattle.model.specs.Refusals.{first_of, lent_refusals};
ghost use Rattle.request.specs.Each.{OneEach};

use crate::frames::check_lent;
use model::{Refusal, Request};

// A request with a least and a most for each frame, and with no more frames than a request may have.
#[derive(Clone, Copy)]
pub struct Whole<'a> {
    pub request: Request<'a>,
    pub ghost one_each: { OneEach request.lists.harvest.now request.lists.least.now request.lists.most.now },
    pub ghost few: { length request.lists.harvest.now ≤ max_frames },
}

// The request as a whole one, or refusal 1, 2 or 7 of its lists.
pub fn check_lists<'a>(request: Request<'a>) -> Result<Whole<'a>, Refusal>
    ensures refused { refused result ≡ first_of (lent_refusals (length request.entry.lists.harvest.now) (leasts_lent
        request.entry) (mosts_lent request.entry)) }
    ensures same { IfOk result (λ whole. whole.request ≡ request.entry) }
{
    let lists = request.lists;
    check_lent(lists.harvest.len(), lists.least.len(), lists.most.len())?;
    Ok(Whole { request })
}

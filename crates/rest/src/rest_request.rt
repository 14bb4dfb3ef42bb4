// The rest of a shift as a request.
ghost use Rattle.std.specs.Prelude.{◌≡◌, ◌≤◌, length};
ghost use Rattle.model.specs.Answer.{asked};
ghost use Rattle.model.specs.Limits.{max_frames};
ghost use Rattle.request.specs.Each.{OneEach};
ghost use Rattle.rest.specs.Rest.{lent, rest_request};

use crate::Outlook;
use model::{Figures, Lists, Request};
use request::Whole;
use shift::Shift;

// The rest as a request: the present charge for the start charge, and only the frames not yet recorded.
pub fn rest_request<'a>(shift: Shift, outlook: Outlook<'a>) -> Whole<'a>
    requires one_each { OneEach outlook.harvest.now outlook.wanted.least.now outlook.wanted.most.now }
    requires few { length outlook.harvest.now ≤ max_frames }
    requires recorded_within { shift.now.recorded ≤ length outlook.harvest.now }
    ensures { asked result.request ≡ rest_request shift (lent outlook.entry) }
{
    let next = shift.now.recorded as usize;
    let figures = Figures {
        capacity: shift.terms.capacity,
        start: shift.now.charge,
        end: shift.terms.end,
    };
    let lists = Lists {
        harvest: &outlook.harvest[next..],
        least: &outlook.wanted.least[next..],
        most: &outlook.wanted.most[next..],
    };
    Whole {
        request: Request { figures, lists },
    }
}

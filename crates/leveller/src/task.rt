// What is to be planned.
ghost use Rattle.std.specs.Prelude.{◌≤◌};
ghost use Rattle.model.specs.Limits.{max_frames};
ghost use Rattle.certifier.specs.Readable.{Startable};
ghost use Rattle.certifier.specs.Able.{Startable-prop};
ghost use Rattle.certifier.specs.Says.{frame_count};

use certifier::{Frames, Rule};
use model::{Request, Store};
use request::most_energy;

// Frames that can be planned from a start charge, no more of them than there may be.
#[derive(Clone, Copy)]
pub struct Task<'a> {
    pub frames: Frames<'a>,
    pub start: u64,
    pub ghost startable: { Startable frames.rule frames.lists.harvest.now frames.lists.least.now
        frames.lists.most.now start } by { Startable-prop _ _ _ _ _ },
    pub ghost few: { frame_count frames ≤ max_frames },
}

impl<'a> Task<'a> {
    ghost use Rattle.std.specs.Prelude.{◌≡◌};
    ghost use Rattle.model.specs.Answer.{asked};
    ghost use Rattle.model.specs.Request.{most_energy};
    ghost use Rattle.model.specs.Plan.{boundless};
    ghost use Rattle.leveller.specs.Plan.{Ready};
    ghost use Rattle.leveller.specs.Says.{TaskOf};

    // A request to be planned, were its capacity this. The energy is handed on, since `open` makes its capacity of it.
    fn with(request: Request<'a>, capacity: u64, energy: u64) -> Task<'a>
        requires { Ready request capacity × (energy ≡ most_energy (asked request)) }
        ensures { TaskOf request.entry capacity result }
    {
        let Request { figures, lists } = request;
        let rule = Rule {
            store: Store { capacity, energy },
            end: figures.end as u64,
        };
        Task {
            frames: Frames::of(rule, lists),
            start: figures.start as u64,
        }
    }

    // A request to be planned as its figures say.
    pub fn of(request: Request<'a>) -> Task<'a>
        requires { Ready request request.figures.capacity }
        ensures { TaskOf request.entry request.entry.figures.capacity result }
    {
        Task::with(
            request,
            request.figures.capacity as u64,
            most_energy(request) as u64,
        )
    }

    // A request to be planned without limit, with a capacity that no charge exceeds.
    pub fn open(request: Request<'a>) -> Task<'a>
        requires { Ready request (boundless (asked request)) }
        ensures { TaskOf request.entry (boundless (asked request.entry)) result }
    {
        let energy = most_energy(request) as u64;
        Task::with(request, energy + request.figures.end as u64, energy)
    }
}

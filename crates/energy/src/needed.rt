// The capacity that a request needs, for C.
ghost use Rattle.std.specs.Prelude.{length};
ghost use Rattle.model.specs.Request.{bounded_request};
ghost use Rattle.planner.specs.Says.{NeededSays};
ghost use Rattle.energy.specs.Through.{Through};
ghost use Rattle.answers.specs.Flat.{needed_flat};

use answers::EnergyNeededAnswer;
use model::{Figures, Lists, Request};
use planner::needed::needed;

// Gives the needed capacity.
#[unsafe(no_mangle)]
pub extern "C" fn energy_needed(
    figures: Figures,
    harvest: &[u32],
    least: &[u32],
    most: &[u32],
) -> EnergyNeededAnswer
    ensures { Through
        (NeededSays (bounded_request figures harvest.now least.now most.now)
        (length least.now) (length most.now))
        needed_flat result }
{
    let lists = Lists {
        harvest,
        least,
        most,
    };
    needed(Request { figures, lists }).into()
}

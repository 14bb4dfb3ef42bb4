// The tracer, for C.
ghost use Rattle.model.specs.Request.{request};
ghost use Rattle.tracer.specs.Says.{TraceSays};
ghost use Rattle.energy.specs.Through.{Through};
ghost use Rattle.answers.specs.Flat.{trace_flat};

use answers::EnergyTraceAnswer;
use model::Figures;

// Writes the charge after each frame and what the frame loses, and judges the budgets.
#[unsafe(no_mangle)]
pub extern "C" fn energy_trace(
    figures: Figures,
    harvest: &[u32],
    budgets: &[u32],
    charges: &mut [i64],
    losses: &mut [u32],
) -> EnergyTraceAnswer
    ensures { Through
        (TraceSays (request figures harvest.now) budgets.now
        charges.old charges.new losses.old losses.new)
        trace_flat result }
{
    tracer::trace(figures, harvest, budgets, charges, losses).into()
}

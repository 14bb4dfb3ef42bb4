// The running shift, for C.
ghost use Rattle.std.specs.Prelude.{length};
ghost use Rattle.model.specs.Request.{bounded_request};
ghost use Rattle.shift.specs.Shift.{typed};
ghost use Rattle.shift.specs.Says.{StartSays, RecordSays};
ghost use Rattle.rest.specs.Rest.{outlook};
ghost use Rattle.rest.specs.Says.{PartIs, RestSays};
ghost use Rattle.energy.specs.Through.{Through};
ghost use Rattle.answers.specs.Flat.{rest_flat, shift_told};
ghost use Rattle.energy.specs.Part.{part_flat};

use answers::{EnergyRefusal, EnergyRestAnswer, EnergyShiftAnswer};
use model::{Figures, Lists, Request};
use rest::{Outlook, Wanted, plan_rest, rest_part};
use shift::{Shift, Typed};

// The part of the budgets that is left: its first entry's index, and its length.
#[repr(C)]
#[derive(Clone, Copy)]
pub struct EnergyPartAnswer {
    pub refusal: EnergyRefusal,
    pub from: usize,
    pub length: usize,
}

// Starts a shift from a request.
#[unsafe(no_mangle)]
pub extern "C" fn energy_shift_start(
    figures: Figures,
    harvest: &[u32],
    least: &[u32],
    most: &[u32],
) -> EnergyShiftAnswer
    ensures { StartSays (bounded_request figures harvest.now least.now most.now)
        (length least.now) (length most.now) (shift_told result) }
{
    let lists = Lists {
        harvest,
        least,
        most,
    };
    shift::start(Request { figures, lists }).into()
}

// Records the next frame's harvest and use.
#[unsafe(no_mangle)]
pub extern "C" fn energy_shift_record(shift: Shift, harvest: u32, used: u32) -> EnergyShiftAnswer
    ensures { RecordSays shift (typed harvest used) (shift_told result) }
{
    let typed = Typed { harvest, used };
    EnergyShiftAnswer::recorded(shift, shift.record(typed))
}

// Plans the frames not yet recorded by the harvests, leasts and mosts lent.
#[unsafe(no_mangle)]
pub extern "C" fn energy_shift_plan_rest(
    shift: Shift,
    harvest: &[u32],
    least: &[u32],
    most: &[u32],
    budgets: &mut [u32],
) -> EnergyRestAnswer
    ensures { Through
        (RestSays shift (outlook harvest.now least.now most.now)
        budgets.old budgets.new)
        rest_flat result }
{
    let outlook = Outlook {
        harvest,
        wanted: Wanted { least, most },
    };
    plan_rest(shift, outlook, budgets).into()
}

// Where the part of the budgets that begins at the next frame lies: an exported function returns no reference. Beside
// a refusal it is the empty part at their beginning.
#[unsafe(no_mangle)]
pub extern "C" fn energy_shift_rest_part(shift: Shift, budgets: &[u32]) -> EnergyPartAnswer
    ensures { Through
        (PartIs shift budgets.now budgets.entry.ref_ptr)
        (part_flat budgets.entry.ref_ptr) result }
{
    match rest_part(shift, budgets) {
        Ok(part) => EnergyPartAnswer {
            refusal: EnergyRefusal::default(),
            from: shift.now.recorded as usize,
            length: part.len(),
        },
        Err(refusal) => EnergyPartAnswer {
            refusal: refusal.into(),
            from: 0,
            length: 0,
        },
    }
}

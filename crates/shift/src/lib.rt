// The running shift: started from a valid, reachable request, and recorded frame by frame. Its rest is planned in
// crate rest, which also checks for refusals 22 and 20.
#![tactic(auto, using(model::proofs::Answer::told_some))]

ghost use Rattle.std.specs.Prelude.{◌≡◌, true};
ghost use Rattle.model.specs.Answer.{asked, leasts_lent, mosts_lent};
ghost use Rattle.model.specs.Refusals.{is_none};
ghost use Rattle.shift.specs.Shift.{drawn, fresh_shift, record_refusal, recorded_by};
ghost use Rattle.shift.specs.Says.{StartSays, RecordSays, started_as, recorded_as};

use model::frame::frame_end;
use model::{Refusal, Request};
use request::check_start;

mod refusals;
mod state;

// What a shift was started from: the number of frames, capacity, start charge and end charge.
#[repr(C)]
#[derive(Clone, Copy, Default)]
pub struct Terms {
    pub frames: u32,
    pub capacity: u32,
    pub start: u32,
    pub end: u32,
}

// What is typed for a frame: its harvest and its use.
#[derive(Clone, Copy)]
pub struct Typed {
    pub harvest: u32,
    pub used: u32,
}

// Sums over the recorded frames.
#[repr(C)]
#[derive(Clone, Copy, Default)]
pub struct Totals {
    pub harvested: u64,
    pub used: u64,
    pub lost: u64,
}

// How a shift stands: the number of frames recorded, the charge, and the totals.
#[repr(C)]
#[derive(Clone, Copy, Default)]
pub struct Present {
    pub recorded: u32,
    pub charge: u32,
    pub totals: Totals,
}

// A shift's record.
#[repr(C)]
#[derive(Clone, Copy, Default)]
pub struct Shift {
    pub terms: Terms,
    pub now: Present,
}

// Starts a shift from a request.
pub fn start(request: Request) -> Result<Shift, Refusal>
    ensures { StartSays (asked request.entry) (leasts_lent request.entry) (mosts_lent request.entry)
        (started_as result) }
{
    check_start(request)?;
    let figures = request.figures;
    Ok(Shift::fresh(Terms {
        frames: request.lists.harvest.len() as u32,
        capacity: figures.capacity,
        start: figures.start,
        end: figures.end,
    }))
}

impl Typed {
    // What the frame takes out of the store: its use.
    fn drawn(self) -> u64
        ensures { result ≡ drawn self }
    {
        self.used as u64
    }
}

impl Shift {
    // A shift with nothing recorded yet.
    fn fresh(terms: Terms) -> Shift
        ensures { result ≡ fresh_shift terms }
    {
        Shift {
            terms,
            now: Present {
                charge: terms.start,
                ..Present::default()
            },
        }
    }

    // The shift as it stands after a frame of which this is typed.
    fn recorded_by(self, typed: Typed) -> Shift
        requires { is_none (record_refusal self typed) ≡ true }
        ensures { result ≡ recorded_by self typed }
    {
        let end = frame_end(
            self.terms.capacity,
            self.now.charge as i64,
            typed.harvest,
            typed.drawn(),
        );
        let totals = self.now.totals;
        Shift {
            now: Present {
                recorded: self.now.recorded + 1,
                charge: end.charge as u32,
                totals: Totals {
                    harvested: totals.harvested + typed.harvest as u64,
                    used: totals.used + typed.used as u64,
                    lost: totals.lost + end.lost,
                },
            },
            ..self
        }
    }

    // Records the next frame's harvest and use: hands over the shift as it stands after it. Where that is refused, the
    // shift stays as it was.
    pub fn record(self, typed: Typed) -> Result<Shift, Refusal>
        ensures { RecordSays self typed (recorded_as self result) }
    {
        self.check_record(typed)?;
        Ok(self.recorded_by(typed))
    }
}

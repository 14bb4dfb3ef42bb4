// A short shift from its start to its last frame, on the request of document 01's listing. Before each frame the rest
// is planned by the forecast. The sun gives other harvests, and the mills use their budget, or what is there if that
// is less. Each frame has two lines: the plan of the rest; then its number, harvest, use, the charge after it and the
// loss so far. The last line has the totals.
#![tactic(auto)]

use model::limits::NO_UPPER_END;
use model::{Figures, Lists, Refusal, Request};
use rest::{Outlook, Wanted, plan_rest, rest_part};
use shift::{Shift, Typed};
use std::{fmt, io};

// Why the program ends early: a write that failed, or a call that is refused.
#[derive(Clone, Copy)]
enum Failure {
    Io(io::Error),
    Refused(Refusal),
}

impl From<io::Error> for Failure {
    fn from(error: io::Error) -> Failure {
        Failure::Io(error)
    }
}

impl From<Refusal> for Failure {
    fn from(refusal: Refusal) -> Failure {
        Failure::Refused(refusal)
    }
}

// By hand, since a write that failed is told as the error itself.
impl fmt::Debug for Failure {
    fn fmt<W: fmt::Write>(&self, f: &mut fmt::Formatter<W>) -> fmt::Result {
        match self {
            Failure::Io(error) => error.fmt(f),
            Failure::Refused(refusal) => refusal.fmt(f),
        }
    }
}

// Writes a list of budgets as a line.
fn list(rt: &impl Print, budgets: &[u32]) -> io::Result<()> {
    rt.print("plan")?;
    for budget in budgets {
        print!(rt; " {budget}")?;
    }
    rt.print("\n")
}

// Writes a figure with what follows it, in a write of its own: one that fails leaves all figures before it.
fn put(rt: &impl Print, figure: u64, end: &str) -> io::Result<()> {
    print!(rt; "{figure}{end}")
}

// The frame's line.
fn line(rt: &impl Print, typed: Typed, shift: Shift) -> io::Result<()> {
    let now = shift.now;
    put(rt, now.recorded as u64, " ")?;
    put(rt, typed.harvest as u64, " ")?;
    put(rt, typed.used as u64, " ")?;
    put(rt, now.charge as u64, " ")?;
    put(rt, now.totals.lost, "\n")
}

// One frame: the rest planned, the frame recorded, and the shift as it stands after it.
fn frame(
    rt: &impl Print,
    shift: Shift,
    outlook: Outlook,
    harvest: u32,
    budgets: &mut [u32],
) -> Result<Shift, Failure> {
    plan_rest(shift, outlook, budgets)?;
    let part = rest_part(shift, budgets)?;
    list(rt, part)?;
    let used = part[0].min(shift.now.charge.saturating_add(harvest));
    let typed = Typed { harvest, used };
    let after = shift.record(typed)?;
    line(rt, typed, after)?;
    Ok(after)
}

// All frames, and the totals.
fn run(
    rt: &impl Print,
    first: Shift,
    outlook: Outlook,
    sun: &[u32],
    budgets: &mut [u32],
) -> Result<(), Failure> {
    let mut shift = first;
    for harvest in sun {
        shift = frame(rt, shift, outlook, *harvest, budgets)?;
    }
    let totals = shift.now.totals;
    put(rt, totals.harvested, " ")?;
    put(rt, totals.used, " ")?;
    put(rt, totals.lost, "\n")?;
    Ok(())
}

// The lists are arrays of the six frames, since there is no heap.
fn main(rt: HostRuntime) -> Result<(), Failure> {
    let lists = Lists {
        harvest: &[6, 4, 0, 0, 5, 5],
        least: &[0; 6],
        most: &[NO_UPPER_END; 6],
    };
    let figures = Figures {
        capacity: 5,
        start: 2,
        end: 2,
    };
    let first = shift::start(Request { figures, lists })?;
    let outlook = Outlook {
        harvest: lists.harvest,
        wanted: Wanted {
            least: lists.least,
            most: lists.most,
        },
    };
    run(&rt, first, outlook, &[1, 5, 2, 0, 10, 4], &mut [0; 6])
}

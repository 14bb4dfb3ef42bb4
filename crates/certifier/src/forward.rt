// The forward pass along certified levels.
ghost use Rattle.std.specs.Prelude.{◌<◌, ◌^◌};
ghost use Rattle.certifier.specs.Says.{Spent, CertifiedIn, LentIn, PlannedIn};

use super::frame::At;
use super::frames::Frames;

// The budget of a frame that has so much, by its level and what the level reserves after it: one unit more than the
// level where that is left.
fn spend(f: At, have: u64, level: u64, reserve: u64) -> u64
    requires { (level < 2 ^ 32) × (reserve < 2 ^ 32) }
    ensures { Spent f.least f.most have level reserve result }
{
    if level < f.least {
        return f.least;
    }
    if f.most <= level {
        return f.most;
    }
    if level + reserve < have {
        return level + 1;
    }
    level
}

// Writes the plan's budgets over the certified levels.
pub fn follow(frames: Frames, start: u64, after: &[u32], budgets: &mut [u32])
    requires { LentIn frames start after.now budgets.old × CertifiedIn frames start budgets.old after.now }
    ensures { PlannedIn frames.entry start budgets.new }
{
    let mut y = start;
    for i in 0..frames.count() {
        let f = frames.at(i);
        let have = f.has(y);
        let b = spend(f, have, budgets[i] as u64, after[i] as u64);
        budgets[i] = b as u32;
        y = have - b;
    }
}

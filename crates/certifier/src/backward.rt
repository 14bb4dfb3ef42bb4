// The backward check of levels, with the exact reserves in hand.
ghost use Rattle.std.specs.Prelude.{◌≡◌, true, false, ◌+◌, ◌-◌, ◌≤◌, ◌<◌, ◌^◌, min, length, IfSome};
ghost use Rattle.certifier.specs.Frame.{drawn};
ghost use Rattle.certifier.specs.Says.{frame_count, TurnedAt, WeighedAt, StartsAt, CertifiedIn};

use super::frame::At;
use super::frames::Frames;
use super::weight::{Turned, Weight};

// Past the last frame the end charge is reserved at every level.
fn past(end: u64) -> Weight
    requires { end < 2 ^ 32 }
    ensures { (result.level ≡ 0) × (result.low ≡ end) × (result.high ≡ end) × (result.gap ≡ end) }
{
    Weight {
        level: 0,
        low: end,
        high: end,
        gap: end,
        after: end,
        above: end,
    }
}

// From a frame at this level to what follows: the level may rise only where the store is empty, and fall only where
// it is full.
fn turn(level: u64, w: Weight) -> Option<Turned>
    ensures { IfSome result (λ t. TurnedAt level w t.low t.high) }
{
    if level == w.level {
        return Some(Turned {
            low: w.low,
            high: w.high,
        });
    }
    if level < w.level {
        return (w.low == 0).then_some(Turned { low: 0, high: 0 });
    }
    (w.gap <= w.high).then_some(Turned {
        low: w.high,
        high: w.high,
    })
}

// What a frame needs to draw a level and leave a reserve. That levels and reserves have 32 bits, or 33, is asked of
// numbers here, below and in `spend`: a level type would be made from each u32 that is read, and the level after it
// needs a type of its own.
fn need_of(f: At, level: u64, reserve: u64) -> u64
    requires { (level < 2 ^ 33) × (reserve < 2 ^ 32) }
    ensures { result ≡ f.drain + drawn f.least f.most level + reserve }
{
    f.drain + f.draw(level) + reserve
}

// The highest level, at which every frame draws its most.
const TOP: u64 = u32::MAX as u64;

// Puts a frame at this level before what follows it. The frame can hold what the level needs, and what it has for sure
// is not above the need of one level more; above the highest there is none.
fn weigh(f: At, level: u64, w: Weight) -> Option<Weight>
    requires { level < 2 ^ 32 }
    ensures { IfSome result (λ v. WeighedAt f level w v) }
{
    let t = turn(level, w)?;
    let need = need_of(f, level, t.low);
    if f.ceiling < need {
        return None;
    }
    let room = f.ceiling.min(f.inflow);
    let gap = f.ceiling - room;
    let high = match need_of(f, level + 1, t.high).checked_sub(room) {
        Some(beyond) => gap.min(beyond),
        None if level == TOP => 0,
        None => return None,
    };
    Some(Weight {
        level,
        low: need.saturating_sub(f.inflow),
        high,
        gap,
        after: t.low,
        above: t.high,
    })
}

// Whether the first frame's level is right for the start charge.
fn starts(start: u64, w: Weight) -> bool
    ensures { result ≡ true → StartsAt start w }
{
    w.low <= start && (start.min(w.gap) <= w.high || w.level == TOP)
}

// Whether the levels are certified; then `after` holds what each reserves after its frame. Frames and lists come from
// different hands here: a struct over both is `Draft`, which lends its parts to this.
pub fn certify(frames: Frames, start: u64, levels: &[u32], after: &mut [u32]) -> bool
    requires { (length levels.now ≡ frame_count frames) × (frame_count frames ≤ length after.old) }
    ensures { result ≡ true → CertifiedIn frames.entry start levels.now after.new }
{
    let mut w = past(frames.rule.end);
    for k in (0..frames.count()).rev() {
        let Some(next) = weigh(frames.at(k), levels[k] as u64, w) else {
            return false;
        };
        after[k] = next.after as u32;
        w = next;
    }
    starts(start, w)
}

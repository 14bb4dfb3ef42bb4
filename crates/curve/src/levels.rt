// The second guess: the reserve as a curve over the levels.
//
// The reserve of a level is 0 at low levels and the full store at high ones, and between it grows from one level to the
// next by as much as the frames behind draw more. One pass from behind keeps that curve by its knots, the levels at
// which its growth changes: a frame adds what it draws, which begins to grow at its least and stops at its most; what
// it has is taken off; and what is then below 0 or above the full store is cut off. A frame's level depends on the
// level before it and on two levels of the curve alone: where the reserve is 0 up to a higher level, it rises to that
// one, and where it is full from a lower one on, it falls to just below that. So a pass from the front finds all
// levels.
//
// Most knots are written and met near an end of the curve. Where many lie between, a new one has up to half of them
// moved.
ghost use Rattle.std.specs.Prelude.{◌≡◌, ◌<◌, ◌≤◌, length};
ghost use Rattle.certifier.specs.Says.{frame_count};

use super::curve::Curve;
use super::knots::{Knot, Knots};
use super::pass::Passed;
use certifier::{Frames, low_bits};

// Frame k as the curve passes it.
fn passed(frames: Frames, k: usize) -> Passed
    requires { k < frame_count frames }
{
    let f = frames.at(k);
    Passed {
        has: f.ceiling.min(f.inflow),
        ceiling: f.ceiling,
        drain: f.drain,
        least: f.least,
        most: frames.lists.most[k] as u64,
    }
}

// A level above all that there is to draw.
fn roof_of(frames: Frames) -> u64 {
    frames.rule.store.energy + 1
}

// Draws the curve from behind, and writes for each frame the last level at which the reserve before it is 0, and the
// last at which it is not full.
fn draw_curve(frames: Frames, start: u64, lows: &mut [u32], highs: &mut [u32], knots: &mut [Knot])
    requires { (0 < frame_count frames) ×
        (frame_count frames ≤ length lows.old) × (frame_count frames ≤ length highs.old) }
{
    let count = frames.count();
    let roof = roof_of(frames);
    let last = passed(frames, count - 1);
    let mut curve = Curve::at_end(
        frames.rule.end,
        last.gap(),
        roof,
        Knots::around_middle(knots),
    );
    for k in (0..count).rev() {
        curve.pass(passed(frames, k));
        lows[k] = low_bits(curve.last_empty());
        if curve.full == 0 {
            highs[k] = lows[k];
            curve.vanish();
        } else {
            highs[k] = low_bits(curve.high.level);
        }
    }
    if curve.full != 0 {
        curve.start_with(start);
        lows[0] = low_bits(curve.last_empty());
        highs[0] = lows[0];
    }
}

// Writes the levels over the lowest ones: each is the level before it, or the nearest between its two. A level at the
// roof is the top: whoever draws the most there refuses nothing more.
fn choose(roof: u32, lows: &mut [u32], highs: &[u32]) {
    let mut level = 0u32;
    for (low, high) in lows.iter_mut().zip(highs.iter()) {
        level = level.min(*high).max(*low);
        *low = if roof <= level { u32::MAX } else { level };
    }
}

// Writes the levels at which the curve leaves 0 or becomes full where the levels turn; `highs` and `knots` are scratch.
// They are three lists, since memory is fixed: the levels stand in the list that becomes the budgets, and the other two
// are lent by whoever has room.
pub fn curve_levels(
    frames: Frames,
    start: u64,
    levels: &mut [u32],
    highs: &mut [u32],
    knots: &mut [Knot],
) {
    let count = frames.count();
    if count == 0 || levels.len() < count || highs.len() < count {
        return;
    }
    draw_curve(frames, start, levels, highs, knots);
    let roof = u32::try_from(roof_of(frames)).unwrap_or(u32::MAX);
    choose(roof, &mut levels[..count], &highs[..count]);
}

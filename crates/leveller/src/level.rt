// The first guess: one level for all frames, at which they draw all that there is to draw. Many requests have no other
// level. Where the store runs dry or overflows at it in the first frames, as before a sunrise, it is not worth a
// certificate.

use certifier::{Frames, draw, low_bits};
use model::Lists;

// How many frames are the first ones.
const FIRST: usize = 64;

// How often the level is looked for.
const ROUNDS: u64 = 6;

// The highest level, at which every frame draws its most.
const TOP: u64 = u32::MAX as u64;

// The level, if the first frames can draw it. What there is to draw is reckoned from the rule's figures: no
// frame that `Frames::at` makes has a drain. Frames and start charge are two parameters, as at certifier's `Draft`.
pub fn one_level(frames: Frames, start: u64) -> Option<u32> {
    let all = frames.rule.store.energy.saturating_sub(frames.rule.end);
    let level = shared_level(frames.lists, all);
    lasts_at_first(frames, start, level).then_some(low_bits(level))
}

// The level at which all is drawn, or whatever is reached where that is not found in some rounds. They begin with the
// mean, and end there where no bound binds.
fn shared_level(lists: Lists, all: u64) -> u64 {
    let mut level = over(all, lists.harvest.len() as u64);
    for _ in 0..ROUNDS {
        let next = nearer(level, drawn_at(lists, low_bits(level)), all);
        if next == level {
            break;
        }
        level = next;
    }
    level
}

// What each of n has of a; all of it where there is none.
fn over(a: u64, n: u64) -> u64 {
    a.checked_div(n).unwrap_or(a)
}

// What frames draw at a level, and how many of them would draw more at one level more.
#[derive(Clone, Copy, Default)]
struct Drawn {
    sum: u64,
    free: u32,
}

// What all frames draw at a level; a most that stands for no upper end is above it.
fn drawn_at(lists: Lists, level: u32) -> Drawn {
    lists.least.iter().zip(lists.most).fold(
        Drawn::default(),
        |d, (least, most)| Drawn {
            sum: d
                .sum
                .wrapping_add(draw(*least as u64, *most as u64, level as u64)),
            free: d
                .free
                .wrapping_add((*least <= level && level < *most) as u32),
        },
    )
}

// The level at which all would be drawn, if the same frames were free there. Where none is and something is left, no
// least binds from the level of all there is on: if none is free there either, every most binds, and the top is it.
fn nearer(level: u64, d: Drawn, all: u64) -> u64 {
    let free = d.free as u64;
    if free == 0 && d.sum < all {
        return if level < all { all } else { TOP };
    }
    if d.sum <= all {
        return level.wrapping_add(over(all - d.sum, free));
    }
    level.saturating_sub(over(d.sum - all - 1, free).wrapping_add(1))
}

// Whether the first frames can draw a level: the store neither runs dry nor overflows.
fn lasts_at_first(frames: Frames, start: u64, level: u64) -> bool {
    let mut charge = start;
    for i in 0..FIRST.min(frames.count()) {
        let f = frames.at(i);
        let have = charge.wrapping_add(f.inflow);
        let need = f.drain.wrapping_add(f.draw(level));
        if f.ceiling < have || have < need {
            return false;
        }
        charge = have - need;
    }
    true
}

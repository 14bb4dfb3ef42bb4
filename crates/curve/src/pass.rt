// The curve from behind a frame to before it.
ghost use Rattle.std.specs.Prelude.{◌≤◌};

use super::curve::{Curve, End};
use super::knots::Knot;

// A frame that the curve passes: what it has even after an empty store, which is never above its ceiling, and its
// bounds as they are lent. So where it has no upper end, its most is above every level, which that of an `At` is not.
#[derive(Clone, Copy)]
pub struct Passed {
    pub has: u64,
    pub ceiling: u64,
    pub drain: u64,
    pub least: u64,
    pub most: u64,
    ghost capped: { has ≤ ceiling },
}

impl Passed {
    // The charge before it from which its store is full; 0 where it takes nothing over.
    pub fn gap(self) -> u64 {
        self.ceiling - self.has
    }

    // What it takes away where it draws so much.
    fn taken(self, drawn: u64) -> u64 {
        self.drain.wrapping_add(drawn)
    }
}

impl<'a> Curve<'a> {
    // Counts it from the first level on at which a frame needs more than it has, with nothing behind it.
    fn widen_down(&mut self, f: Passed) {
        let from = if f.taken(f.least) <= f.has {
            f.has.wrapping_sub(f.drain).wrapping_add(1)
        } else {
            1
        };
        if from < self.low.level && f.has < f.taken(f.most) {
            self.widen_low(from);
        }
    }

    // Counts it up to the last level at which a frame does not need its ceiling, with a full store behind it.
    fn widen_up(&mut self, f: Passed) {
        if f.ceiling <= self.full {
            return;
        }
        let free = f.ceiling - self.full;
        let last = if free <= f.taken(f.most) {
            self.roof.min(free.wrapping_sub(f.taken(1)))
        } else {
            self.roof
        };
        if self.high.level < last && f.taken(f.least) < free {
            self.widen_high(last);
        }
    }

    // The knot at which a frame's draw begins to grow, if it grows, and not above the last level only.
    fn knot_at_least(&self, f: Passed) -> Option<Knot> {
        if f.least < f.most && f.least <= self.high.level {
            Some(Knot::at(f.least, 1))
        } else {
            None
        }
    }

    // The knot at which a frame's draw stops growing, if it grows, and not below the first level only.
    fn knot_at_most(&self, f: Passed) -> Option<Knot> {
        if f.least < f.most && self.low.level <= f.most {
            Some(Knot::at(f.most, u32::MAX))
        } else {
            None
        }
    }

    // The low end with what a frame draws there, and the knot that the frame brings.
    fn drawn_low(&self, f: Passed) -> (End, Option<Knot>) {
        let level = self.low.level;
        if level <= f.least {
            (self.low.with(f.taken(f.least), 0), self.knot_at_least(f))
        } else if level <= f.most {
            (self.low.with(f.taken(level), 1), None)
        } else {
            (self.low.with(f.taken(f.most), 0), None)
        }
    }

    // The high end with what a frame draws there, and the knot that the frame brings.
    fn drawn_high(&self, f: Passed) -> (End, Option<Knot>) {
        let level = self.high.level;
        if f.most <= level {
            (self.high.with(f.taken(f.most), 0), self.knot_at_most(f))
        } else if f.least <= level {
            (self.high.with(f.taken(level), 1), None)
        } else {
            (self.high.with(f.taken(f.least), 0), None)
        }
    }

    // Makes it the needs of a frame: with what that draws at each level.
    fn draw(&mut self, f: Passed) {
        let (low, low_knot) = self.drawn_low(f);
        let (high, high_knot) = self.drawn_high(f);
        self.low = low;
        self.high = high;
        // One call for both, so that a compiler puts it into the pass. By `into_iter().flatten()` the curve took 37 %
        // more instructions.
        for knot in [low_knot, high_knot] {
            if let Some(knot) = knot {
                self.knots.insert(knot);
            }
        }
    }

    // Leaves nothing above what a full store needs, of what is needed beyond what the frame has.
    fn cut_high(&mut self, f: Passed) {
        if f.ceiling <= self.high.height {
            self.narrow_high(self.high.height - f.ceiling, f.gap());
        } else {
            self.high.height = self.high.height.wrapping_sub(f.has);
        }
    }

    // The same, and nothing below 0.
    fn cut(&mut self, f: Passed) {
        self.spend(f.has);
        if !self.is_empty() {
            self.cut_high(f);
        }
    }

    // Takes so much off its first level, and leaves nothing below 0.
    fn spend(&mut self, has: u64) {
        if self.low.height <= has {
            self.narrow_low(has - self.low.height);
        } else {
            self.low.height -= has;
        }
    }

    // Takes the curve from behind a frame to before it.
    pub fn pass(&mut self, f: Passed) {
        self.widen_down(f);
        self.widen_up(f);
        if !self.is_empty() {
            self.draw(f);
            self.cut(f);
        }
        self.full = f.gap();
    }

    // Takes off what the first frame, before which it is, has besides.
    pub fn start_with(&mut self, start: u64) {
        if !self.is_empty() && self.low.height <= start {
            self.narrow_low(start - self.low.height);
        }
    }
}

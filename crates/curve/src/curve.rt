// The curve, and its two ends moved outward over levels at which it stays the same, or inward over those that are cut
// off.
ghost use Rattle.std.specs.Prelude.{◌≡◌, ◌*◌, ◌^◌, ◌<◌, ◌≤◌};

use super::knots::{Knot, Knots};
use certifier::low_bits;

// An end of the curve: its level, what is reserved or needed there, and by how much that grows for a level between it
// and the next knot, modulo 2^32.
#[derive(Clone, Copy)]
pub struct End {
    pub level: u64,
    pub height: u64,
    pub step: u32,
}

impl End {
    // The same with what is needed besides, which grows by so much.
    pub fn with(self, need: u64, step: u32) -> End {
        End {
            level: self.level,
            height: self.height.wrapping_add(need),
            step: self.step.wrapping_add(step),
        }
    }

    // By how much it grows over a distance.
    fn growth(self, distance: u64) -> u64
        ensures { 0 < result → 0 < self.step }
    {
        self.step as u64 * low_bits(distance) as u64
    }
}

// The curve is 0 below its low end and `full` above its high one. Its knots are at levels from one end to the other,
// both included. Where no level is between, the high end's is just below the low one's, and neither the knots nor what
// else the ends have say anything. Level 0 is never counted and taken for one below the low end: no level is lower, so
// nobody asks for the reserve there. No level is above the roof.
//
// What is done at the two ends is no pair of twins: at the low one levels are counted up from a reserve of 0, at the
// high one down from the full store, and sums stand there for differences. Nothing is promised of any figure, so what
// does not fit is cut to its low bits, and the guess may be wrong then.
#[derive(Drop)]
pub struct Curve<'a> {
    pub roof: u64,
    pub full: u64,
    pub low: End,
    pub high: End,
    pub knots: Knots<'a>,
}

impl<'a> Curve<'a> {
    // The curve behind the last frame: the end charge at every level, of which the roof is the last that is counted, so
    // that its full store is asked of nobody; with the last frame's it is the same for all frames that have one
    // capacity.
    pub fn at_end(end: u64, full: u64, roof: u64, knots: Knots<'a>) -> Curve<'a> {
        let low = End {
            level: 1,
            height: end,
            step: 0,
        };
        let high = End { level: roof, ..low };
        let mut curve = Curve {
            roof,
            full,
            low,
            high,
            knots,
        };
        if end == 0 {
            curve.vanish();
        }
        curve
    }

    // Makes it 0 at every level.
    pub fn vanish(&mut self) {
        self.low.level = self.roof.wrapping_add(1);
        self.high.level = self.roof;
    }

    // Whether no level lies between its ends.
    pub fn is_empty(&self) -> bool {
        self.high.level < self.low.level
    }

    // The last level at which it is 0.
    pub fn last_empty(&self) -> u64 {
        self.low.level.wrapping_sub(1)
    }

    // Keeps by knots where it leaves 0, in one level, and where it goes on from there; gives its growth above a lower
    // level.
    fn keep_low(&mut self, level: u64) -> u32 {
        let start = low_bits(self.low.height);
        let bend = self.low.step.wrapping_sub(start);
        self.knots.put_first(Knot::at(self.low.level, bend));
        let before = self.last_empty();
        if level < before {
            self.knots.put_first(Knot::at(before, start));
            return 0;
        }
        start
    }

    // Counts it from a lower level on.
    pub fn widen_low(&mut self, level: u64) {
        let step = if self.is_empty() {
            self.knots.clear();
            self.high.height = 0;
            self.high.step = 0;
            0
        } else {
            self.keep_low(level)
        };
        self.low = End {
            level,
            height: 0,
            step,
        };
    }

    // Keeps by knots up to where it goes, and where it becomes full, in one level; gives its growth below a higher
    // level.
    fn keep_high(&mut self, level: u64) -> u32 {
        let rest = low_bits(self.full.wrapping_sub(self.high.height));
        let bend = rest.wrapping_sub(self.high.step);
        self.knots.put_last(Knot::at(self.high.level, bend));
        let next = self.high.level.wrapping_add(1);
        if next < level {
            self.knots.put_last(Knot::at(next, 0u32.wrapping_sub(rest)));
            return 0;
        }
        rest
    }

    // Counts it up to a higher level.
    pub fn widen_high(&mut self, level: u64) {
        let step = if self.is_empty() {
            self.knots.clear();
            self.low.height = self.full;
            self.low.step = 0;
            0
        } else {
            self.keep_high(level)
        };
        self.high = End {
            level,
            height: self.full,
            step,
        };
    }

    // Begins it behind the last level that needs no more than there is. At a level as much as the height is left, and
    // up to knot i, or to the last level where there is none, the need grows by the step.
    fn begin(&mut self, i: usize, at: End)
        requires { (0 < at.step) × (i ≤ self.old.knots.end) }
    {
        let left = low_bits(at.height);
        self.low = End {
            level: at
                .level
                .wrapping_add((left / at.step) as u64)
                .wrapping_add(1),
            height: (at.step - left % at.step) as u64,
            step: at.step,
        };
        self.knots.first = i;
    }

    // Leaves out the levels that need no more than there is, of which `spare` is left at its first level.
    pub fn narrow_low(&mut self, spare: u64) {
        let mut at = End {
            height: spare,
            ..self.low
        };
        for i in self.knots.first..self.knots.end {
            let next = self.knots.list[i];
            let rise = at.growth(next.level().wrapping_sub(at.level));
            if at.height < rise {
                self.begin(i, at);
                return;
            }
            at = End {
                level: next.level(),
                height: at.height - rise,
                step: next.above(at.step),
            };
        }
        if at.height < at.growth(self.high.level.wrapping_sub(at.level)) {
            self.begin(self.knots.end, at);
            return;
        }
        self.low.level = self.high.level.wrapping_add(1);
    }

    // Ends it at the last level that needs less than the ceiling, at which `full` would be reserved. At a level the
    // need is by the height above the ceiling, and down to knot i - 1, or to the first level where there is none, it
    // falls by the step.
    fn finish(&mut self, i: usize, at: End, full: u64)
        requires { (0 < at.step) × (self.old.knots.first ≤ i) × (i ≤ self.old.knots.end) }
    {
        let above = low_bits(at.height);
        self.high = End {
            level: at
                .level
                .wrapping_sub((above / at.step) as u64)
                .wrapping_sub(1),
            height: full.wrapping_sub((at.step - above % at.step) as u64),
            step: at.step,
        };
        self.knots.end = i;
    }

    // Leaves out the levels that need the ceiling, at which `full` would be reserved; its last level needs `excess`
    // more.
    pub fn narrow_high(&mut self, excess: u64, full: u64) {
        let mut at = End {
            height: excess,
            ..self.high
        };
        for i in (self.knots.first..self.knots.end).rev() {
            let next = self.knots.list[i];
            let fall = at.growth(at.level.wrapping_sub(next.level()));
            if at.height < fall {
                self.finish(i + 1, at, full);
                return;
            }
            at = End {
                level: next.level(),
                height: at.height - fall,
                step: next.below(at.step),
            };
        }
        if at.height < at.growth(at.level.wrapping_sub(self.low.level)) {
            self.finish(self.knots.first, at, full);
            return;
        }
        self.high.level = self.last_empty();
    }
}

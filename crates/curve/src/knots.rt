// Knots: levels at which the growth of a curve changes. They stand in rising order in a part of a list that grows and
// shrinks at both ends. Around the middle of the list four places for each frame suffice (docs/DECISIONS.md, "Can the
// curve lose knots?"); were an end of it reached, a knot would be lost, and the guess could be wrong.
ghost use Rattle.std.specs.Prelude.{◌≡◌, ◌+◌, ◌<◌, ◌≤◌, length};

use certifier::low_bits;

// A level, of which the low 32 bits count, and the change of the growth there, modulo 2^32.
#[derive(Clone, Copy, Default)]
pub struct Knot {
    place: u32,
    bend: u32,
}

impl Knot {
    // The knot at a level.
    pub(super) fn at(level: u64, bend: u32) -> Knot {
        Knot {
            place: low_bits(level),
            bend,
        }
    }

    // Its level.
    pub(super) fn level(self) -> u64 {
        self.place as u64
    }

    // The growth above it, from that below it.
    pub(super) fn above(self, step: u32) -> u32 {
        step.wrapping_add(self.bend)
    }

    // The growth below it, from that above it.
    pub(super) fn below(self, step: u32) -> u32 {
        step.wrapping_sub(self.bend)
    }
}

// The knots are list[first..end]. The list is lent and its ends stand beside it, since memory is fixed: there is no
// heap for a deque.
#[derive(Drop)]
pub struct Knots<'a> {
    pub list: &'a mut [Knot],
    pub first: usize,
    pub end: usize,
    ghost inside: { (first ≤ end) × (end ≤ length list.now) },
}

impl<'a> Knots<'a> {
    // No knots; they are to stand around the middle of the list.
    pub fn around_middle(list: &'a mut [Knot]) -> Knots<'a> {
        let middle = list.len() / 2;
        Knots {
            list,
            first: middle,
            end: middle,
        }
    }

    // Leaves no knot; new ones are to stand around the middle again.
    pub fn clear(&mut self) {
        self.first = self.list.len() / 2;
        self.end = self.first;
    }

    // Puts a knot before all others, if it bends anything.
    pub fn put_first(&mut self, knot: Knot) {
        if knot.bend != 0 && 0 < self.first {
            self.first -= 1;
            self.list[self.first] = knot;
        }
    }

    // Puts a knot behind all others, if it bends anything.
    pub fn put_last(&mut self, knot: Knot) {
        if knot.bend != 0 && self.end < self.list.len() {
            self.list[self.end] = knot;
            self.end += 1;
        }
    }

    // Puts a knot among the others, from the nearer end; none where an end of the list is reached.
    pub fn insert(&mut self, knot: Knot) {
        if self.first == 0 || self.end == self.list.len() {
            return;
        }
        let middle = self.first + (self.end - self.first) / 2;
        if knot.place < self.list[middle].place {
            self.insert_from_first(knot);
        } else {
            self.insert_from_end(knot);
        }
    }

    // The next two are no twins: one frees a place below the first knot and goes up, the other one above the last and
    // goes down. Both move knots as they search, four at a time as long as there are four, which counts by hand: for a
    // search by halves and `copy_within` see docs/DECISIONS.md, "How does a knot come to its place?".

    // Puts a knot before all that are not below it; those below it go down by one place.
    fn insert_from_first(&mut self, knot: Knot)
        requires { 0 < self.old.first }
    {
        let mut gap = self.first - 1;
        while gap + 4 < self.end && self.list[gap + 4].place < knot.place {
            self.move_four(gap + 1, gap);
            gap += 4;
        }
        for i in gap + 1..self.end {
            let next = self.list[i];
            if knot.place <= next.place {
                break;
            }
            self.list[gap] = next;
            gap = i;
        }
        self.list[gap] = knot;
        self.first -= 1;
    }

    // Puts a knot behind all that are not above it; those above it go up by one place.
    fn insert_from_end(&mut self, knot: Knot)
        requires { self.old.end < length self.old.list.now }
    {
        let mut gap = self.end;
        while self.first + 4 <= gap && knot.place < self.list[gap - 4].place {
            gap -= 4;
            self.move_four(gap, gap + 1);
        }
        for i in (self.first..gap).rev() {
            let next = self.list[i];
            if next.place <= knot.place {
                break;
            }
            self.list[gap] = next;
            gap = i;
        }
        self.list[gap] = knot;
        self.end += 1;
    }

    // Four knots go to another place.
    fn move_four(&mut self, from: usize, to: usize)
        requires { (from + 4 ≤ length self.old.list.now) × (to + 4 ≤ length self.old.list.now) }
        ensures { (self.new.first ≡ self.old.first) × (self.new.end ≡ self.old.end) ×
            (length self.new.list.now ≡ length self.old.list.now) }
    {
        let a = self.list[from];
        let b = self.list[from + 1];
        let c = self.list[from + 2];
        let d = self.list[from + 3];
        self.list[to] = a;
        self.list[to + 1] = b;
        self.list[to + 2] = c;
        self.list[to + 3] = d;
    }
}

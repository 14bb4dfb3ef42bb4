// The house curves as tables, and what budgets are worth on one.
ghost use Rattle.std.specs.Prelude.{◌≡◌, ◌*◌, ◌≤◌, length};
ghost use Rattle.model.specs.Curves as curves;
ghost use Rattle.model.specs.Limits.{max_frames};
ghost use Rattle.grader.specs.Curves.{curve_of, IsHouse};

// A curve: the edges between its bands, and for each band the gain of a unit in it. Two arrays, since there is one gain
// more than edges; of fixed lengths, since a Vec would need a heap.
#[derive(Clone, Copy)]
pub struct Curve {
    edges: [u64; 4],
    gains: [u64; 5],
}

// Most for the first units, half as much in each band after it.
pub const CURVE_0: Curve = Curve {
    edges: [100, 300, 700, 1500],
    gains: [16, 8, 4, 2, 1],
};

// More than curve 0 for the first units, and nothing above its last edge.
pub const CURVE_1: Curve = Curve {
    edges: [50, 200, 800, 2000],
    gains: [24, 12, 3, 1, 0],
};

// Wide bands, each a little less than the one before it.
pub const CURVE_2: Curve = Curve {
    edges: [1000, 2000, 4000, 8000],
    gains: [5, 4, 3, 2, 1],
};

impl Curve {
    // What one budget is worth: in each band, its gain for every unit of the budget.
    fn worth(&self, budget: u32) -> u64
        requires { IsHouse self.now }
        ensures is { result ≡ curves.worth (curve_of self.now) budget }
        ensures below { result ≤ 24 * budget }
    {
        let all = budget as u64;
        let mut sum: u64 = 0;
        let mut from: u64 = 0;
        for (to, gain) in self.edges.iter().zip(&self.gains) {
            sum += *gain * all.min(*to).saturating_sub(from);
            from = *to;
        }
        // Above the last edge, the last gain: the one that has no edge to go with.
        sum + self.gains[4] * all.saturating_sub(from)
    }

    // What a list of budgets is worth.
    pub fn grade(&self, budgets: &[u32]) -> u64
        requires house { IsHouse self.now }
        requires few { length budgets.now ≤ max_frames }
        ensures { result ≡ curves.grade (curve_of self.now) budgets.now }
    {
        let mut sum: u64 = 0;
        for budget in budgets {
            sum += self.worth(*budget);
        }
        sum
    }
}

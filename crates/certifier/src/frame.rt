// One frame of a request, and the rule by which requests become frames.
ghost use Rattle.std.specs.Prelude.{◌≡◌, ◌+◌, ◌-◌, ◌≤◌, ◌^◌, min};
ghost use Rattle.certifier.specs.Frame.{drawn, Plain};

use model::Store;

// What turns harvests, leasts and mosts into frames, and the charge to end with.
#[derive(Clone, Copy)]
pub struct Rule {
    pub store: Store,
    pub end: u64,
}

// A frame of the request. Its figures leave room for sums.
#[derive(Clone, Copy)]
pub struct At {
    pub inflow: u64,
    pub ceiling: u64,
    pub drain: u64,
    pub least: u64,
    pub most: u64,
    pub ghost plain: { Plain inflow ceiling drain least most },
}

// What a frame with these bounds takes at a level, of any numbers: an `At` asks more of its figures than this needs.
pub fn draw(least: u64, most: u64, level: u64) -> u64
    ensures { result ≡ drawn least most level }
{
    least.max(most.min(level))
}

impl At {
    // What the frame takes at a level.
    pub fn draw(self, level: u64) -> u64
        ensures { result ≡ drawn self.least self.most level }
    {
        draw(self.least, self.most, level)
    }

    // What the frame has beyond its drain, from a charge.
    pub fn has(self, charge: u64) -> u64
        requires { (charge ≤ 2 ^ 33) × (self.drain ≤ min self.ceiling (charge + self.inflow)) }
        ensures { result ≡ min self.ceiling (charge + self.inflow) - self.drain }
    {
        self.ceiling.min(charge + self.inflow) - self.drain
    }
}

// The frame rule as code, for every entry that follows charges.
// Capacity, charge and harvest stay parameters of their own: the charge is a u32 for two functions and an i64 for one,
// and a struct of the three would be made anew for each frame, of a figure, what is followed and an entry of a list.
ghost use Rattle.std.specs.Prelude.{◌≡◌, ◌≤◌, ◌<◌, ◌^◌};
ghost use Rattle.std.specs.Int.Signed.{mag};
ghost use Rattle.model.specs.Charge.{at_hand, frame_end};
ghost use Rattle.model.specs.Trace.{traced_end};

// What a frame ends with: the charge, which may be below zero, and what was lost because the store was full.
#[derive(Clone, Copy)]
pub struct TracedEnd {
    pub charge: i64,
    pub lost: u64,
}

// What a frame has at hand: all of charge and harvest, whatever the capacity.
pub fn at_hand(capacity: u32, charge: u32, harvest: u32) -> u64
    ensures { result ≡ at_hand capacity charge harvest }
{
    charge as u64 + harvest as u64
}

// What is drawn taken off charge and harvest; what exceeds the capacity is lost.
pub fn frame_end(capacity: u32, charge: i64, harvest: u32, drawn: u64) -> TracedEnd
    requires { (mag charge < 2 ^ 62) × (drawn < 2 ^ 33) }
    ensures { result ≡ traced_end capacity charge harvest drawn }
{
    let most = capacity as i64;
    let left = charge + (harvest as i64) - (drawn as i64);
    if most <= left {
        TracedEnd {
            charge: most,
            lost: (left - most) as u64,
        }
    } else {
        TracedEnd {
            charge: left,
            lost: 0,
        }
    }
}

// The charge after a frame in which what is drawn is at hand.
pub fn charge_after(capacity: u32, charge: u32, harvest: u32, drawn: u64) -> u32
    requires { drawn ≤ at_hand capacity charge harvest }
    ensures { result ≡ (frame_end capacity charge harvest drawn).charge }
{
    let end = frame_end(capacity, charge as i64, harvest, drawn);
    end.charge as u32
}

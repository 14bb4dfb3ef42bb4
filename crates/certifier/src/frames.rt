// How a request becomes frames. In planning, `Frames::at` and `capacity_for` alone know the charge rule; all else works
// on any frame.
ghost use Rattle.std.specs.Prelude.{◌≡◌, ◌<◌, ◌^◌};
ghost use Rattle.model.specs.Request.{bounds};
ghost use Rattle.model.specs.Plan.{capacity_for, most_of};
ghost use Rattle.certifier.specs.Readable.{Readable};

use super::frame::{At, Rule};
use model::Lists;
use model::limits::NO_UPPER_END;

// Frames that can be read: figures of 32 bits, and a harvest, a least and a most for each frame.
#[derive(Clone, Copy)]
pub struct Frames<'a> {
    pub rule: Rule,
    pub lists: Lists<'a>,
    pub ghost readable: { Readable rule lists.harvest.now lists.least.now lists.most.now },
}

impl<'a> Frames<'a> {
    ghost use Rattle.certifier.specs.Says.{frame_count, ReadIn};

    // The frames of lists by a rule.
    pub fn of(rule: Rule, lists: Lists<'a>) -> Frames<'a>
        requires { Readable rule lists.harvest.now lists.least.now lists.most.now }
        ensures { (result.rule ≡ rule) × (result.lists ≡ lists.entry) }
    {
        Frames { rule, lists }
    }

    // How many there are.
    pub fn count(self) -> usize
        ensures { result ≡ frame_count self.entry }
    {
        self.lists.harvest.len()
    }

    // Frame i: what is carried in above the capacity is cut off, and the harvest comes on top. That there is a frame i
    // is asked here and of those who pass a place on: a type for places would have to hold its frames.
    pub fn at(self, i: usize) -> At
        requires { i < frame_count self }
        ensures { ReadIn self.entry i result }
    {
        let inflow = self.lists.harvest[i] as u64;
        // it has 32 bits: a compiler that knows it sees that no inflow is above its ceiling
        let capacity = self.rule.store.capacity as u32;
        At {
            inflow,
            ceiling: capacity as u64 + inflow,
            drain: 0,
            least: self.lists.least[i] as u64,
            most: most_of(self.rule.store.energy, self.lists.most[i]),
        }
    }
}

// The least capacity with which a frame can spend and carry on so much.
pub fn capacity_for(amount: u64, inflow: u64) -> u64
    ensures { result ≡ capacity_for amount inflow }
{
    amount.saturating_sub(inflow)
}

// The most of a frame; all energy where there is no upper end.
fn most_of(energy: u64, most: u32) -> u64
    requires { energy < 2 ^ 32 }
    ensures { (result ≡ most_of energy (bounds 0 most)) × (result < 2 ^ 32) }
{
    if most == NO_UPPER_END {
        // it has 32 bits too
        energy as u32 as u64
    } else {
        most as u64
    }
}

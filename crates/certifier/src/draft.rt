// Levels tried: certified and followed, or left.
ghost use Rattle.certifier.specs.Readable.{Lent};
ghost use Rattle.certifier.specs.Able.{Lent-prop};

use super::backward::certify;
use super::forward::follow;
use super::frames::Frames;

// What a guess is lent: frames that can be planned from a start charge, a list for what is reserved after each frame,
// and one for levels and budgets. Frames and start are two fields, and two parameters of many functions: a struct of
// both would be taken apart at once, since frames alone go on to `at` and `count` and the start is read once.
#[derive(Drop)]
pub struct Draft<'a> {
    pub frames: Frames<'a>,
    pub start: u64,
    pub after: &'a mut [u32],
    pub budgets: &'a mut [u32],
    pub ghost lent: { Lent frames.rule frames.lists.harvest.now frames.lists.least.now frames.lists.most.now
        start after.now budgets.now } by { Lent-prop _ _ _ _ _ _ _ },
}

impl<'a> Draft<'a> {
    ghost use Rattle.certifier.specs.Draft.{TriedOn};

    // The budgets are levels: has them certified and turns them into the plan's budgets, or leaves them as they are.
    // The answer is a plain yes or no, as that of `certify`, for `||`: what stands in the lists after a no is the next
    // guess's scratch, so an Option would have nothing to hold.
    pub fn by_levels(&mut self) -> bool
        ensures { TriedOn self.old self.new result }
    {
        // the two passes are lent the lists and are no methods: tried behind `&mut self`, and what is written to one
        // list was not known to leave the other as it was
        let (after, budgets) = (&mut *self.after, &mut *self.budgets);
        if certify(self.frames, self.start, budgets, after) {
            follow(self.frames, self.start, after, budgets);
            return true;
        }
        false
    }
}

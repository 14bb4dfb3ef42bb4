// Drawing a level, frame after frame, until the store is full, runs dry or the last frame is passed.
ghost use Rattle.std.specs.Prelude.{◌≤◌, ◌<◌, ◌^◌};
ghost use Rattle.certifier.specs.Says.{frame_count};
ghost use Rattle.search.specs.Search.{ScannedAt};

use certifier::Frames;

// Whether the level goes on from the charge at the frames from `from` on. Its size is asked of a number, as certifier's
// `need_of` does: a type for levels would be made anew from every difference that is tried.
pub fn scan(frames: Frames, from: usize, charge: u64, level: u64) -> bool
    requires { (charge ≤ 2 ^ 33) × (level < 2 ^ 33) × (from ≤ frame_count frames) }
    ensures { ScannedAt frames.entry from charge level result }
{
    let mut y = charge;
    for k in from..frames.count() {
        let f = frames.at(k);
        let a = y + f.inflow;
        if f.ceiling <= a {
            return true;
        }
        let need = f.drain + f.draw(level);
        if a < need {
            return false;
        }
        y = a - need;
    }
    frames.rule.end <= y
}

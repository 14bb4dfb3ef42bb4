// A frame as a word file has it.
ghost use Rattle.std.specs.Prelude.{◌≡◌, false, ◌+◌, ◌*◌, ◌<◌, ◌≤◌, ◌^◌, length};
ghost use Rattle.model.specs.Request.{bounds};
ghost use Rattle.words.specs.Spelt.{Fits, spelt};
ghost use Rattle.words.specs.Puts.{Wrote};
ghost use Rattle.wordfile.specs.File.{BoundsFit, unless, words_of_frame};

use model::limits::NO_UPPER_END;
use words::{Word, Writer};

// A harvest, and its bounds, absent ones spelt out.
#[derive(Clone, Copy)]
pub struct Frame {
    pub harvest: u32,
    pub least: u32,
    pub most: u32,
}

// How many words a frame with these bounds has, whatever its harvest: none for a least of 0 or for no upper end.
pub fn frame_size(least: u32, most: u32) -> usize
    ensures { result ≡ length (words_of_frame 0 (bounds least most)) }
{
    1 + usize::from(least != 0) + usize::from(most != NO_UPPER_END)
}

// Puts a bound's word, unless the bound is absent. Room is asked of each function that puts, and is no field of the
// writer: each asks it for other words, and a `&mut` has no ghost field beside it.
fn put_unless(writer: &mut Writer, absent: bool, bound: Word)
    requires fits { absent ≡ false → Fits bound }
    requires room { writer.old.at + 4 * length (unless absent (spelt bound)) ≤ length writer.old.out.now }
    ensures { Wrote (unless absent (spelt bound)) writer.old writer.new }
{
    if !absent {
        writer.put(bound);
    }
}

// Puts the words of a frame behind those before it.
pub fn put_frame(writer: &mut Writer, frame: Frame)
    requires fits { (frame.harvest < 2 ^ 30) × BoundsFit (bounds frame.least frame.most) }
    requires room { writer.old.at + 4 * length (words_of_frame frame.harvest (bounds frame.least frame.most)) ≤ length
        writer.old.out.now }
    ensures { Wrote (words_of_frame frame.harvest (bounds frame.least frame.most)) writer.old writer.new }
{
    writer.put(Word::Harvest(frame.harvest));
    put_unless(writer, frame.least == 0, Word::Least(frame.least));
    put_unless(writer, frame.most == NO_UPPER_END, Word::Most(frame.most));
}

// Reading a word file: what is refused is known before anything is written.
ghost use Rattle.std.specs.Prelude.{◌≡◌, false, None, ℕ, ◌+◌, ◌/◌, ◌<◌, ◌≤◌, drop, length, set, get_or};
ghost use Rattle.model.specs.Answer.{refused};
ghost use Rattle.model.specs.Lent.{over};
ghost use Rattle.model.specs.Refusals.{first_of};
ghost use Rattle.words.specs.Words.{value_in, words_of};
ghost use Rattle.wordfile.specs.Form.{figure_count};
ghost use Rattle.wordfile.specs.File.{bound_in, harvest_at, least_at, most_at, says_at};
ghost use Rattle.wordfile.specs.File.{figures_in, harvests_in, leasts_in, mosts_in};
ghost use Rattle.wordfile.specs.File.{read_refusal, room_refusals};
ghost use Rattle.wordfile.specs.Says.{ReadSays, SameRoom};

use crate::form::{LEAST, MOST, scan};
use crate::frame::Frame;
use model::limits::{MAX_FILE_BYTES, MAX_FRAMES, NO_UPPER_END};
use model::{Figures, Refusal};
use request::check_that;
use words::{Word, nth, rest, tag};

// The figures of a request, and the number of its frames.
#[repr(C)]
#[derive(Clone, Copy, Default)]
pub struct Header {
    pub figures: Figures,
    pub frames: usize,
}

// Lists lent for the harvests, leasts and mosts of a file.
#[derive(Drop)]
struct Room<'a> {
    harvest: &'a mut [u32],
    least: &'a mut [u32],
    most: &'a mut [u32],
}

// Whether so many frames are few enough, and each list has room for them.
fn check_room(frames: usize, room: &Room) -> Result<(), Refusal>
    ensures { refused result ≡ first_of (room_refusals frames (length room.now.harvest.now) (length
        room.now.least.now) (length room.now.most.now)) }
{
    check_that(frames <= MAX_FRAMES, Refusal::TooManyFrames)?;
    check_that(frames <= room.harvest.len(), Refusal::WrongLength)?;
    check_that(frames <= room.least.len(), Refusal::WrongLength)?;
    check_that(frames <= room.most.len(), Refusal::WrongLength)
}

// What is refused of a file; one that is too long is not gone over.
fn check_read(file: &[u8], room: &Room) -> Result<(), Refusal>
    ensures { refused result ≡ read_refusal file.now (length room.now.harvest.now) (length room.now.least.now) (length
        room.now.most.now) }
{
    check_that(file.len() <= MAX_FILE_BYTES, Refusal::TooManyFrames)?;
    let closed = scan(file)?;
    check_that(
        file.len() <= 4 * closed.words,
        Refusal::BadWord(closed.words as u64),
    )?;
    check_room(closed.frames, room)
}

// The value of word i of a file. That there is such a word is asked here, of `frame_at` and of `nth`, and not by a type:
// a place as a value would have to hold its file, and the loop over places knows it anyway.
fn value_at(file: &[u8], i: usize) -> u32
    requires { i < length file.now / 4 }
    ensures { result ≡ value_in (get_or (words_of file.now) i 0) }
{
    rest::<30>(nth(file, i))
}

// Whether word i of a file is a bound.
fn is_bound(file: &[u8], i: usize) -> bool
    ensures { result ≡ false → (mark : ℕ) → mark / 2 ≡ 2 → bound_in mark (drop i (words_of file.now)) ≡ None }
{
    i < file.len() / 4 && tag::<30>(nth(file, i)) == 2
}

// The amount of the bound with this mark at word i of a file, if there is one. By its mark and not as a `Word`: the
// compiler then chooses between values, where it would jump for a match, and which bounds come is chance.
fn bound_at(file: &[u8], i: usize, mark: u32) -> Option<u32>
    ensures { result ≡ bound_in mark (drop i (words_of file.now)) }
{
    if i >= file.len() / 4 {
        return None;
    }
    let bits = nth(file, i);
    (tag::<29>(bits) == mark).then_some(rest::<29>(bits))
}

// The frame with harvest word i of a file.
fn frame_at(file: &[u8], i: usize) -> Frame
    requires { i < length file.now / 4 }
    ensures harvest { result.harvest ≡ says_at harvest_at (words_of file.now) i }
    ensures least { result.least ≡ says_at least_at (words_of file.now) i }
    ensures most { result.most ≡ says_at most_at (words_of file.now) i }
{
    let harvest = value_at(file, i);
    // many files have no bounds, and a jump for a frame without any is foretold in them
    if !is_bound(file, i + 1) {
        return Frame {
            harvest,
            least: 0,
            most: NO_UPPER_END,
        };
    }
    let least = bound_at(file, i + 1, LEAST);
    let most = bound_at(file, i + 1 + usize::from(least.is_some()), MOST);
    Frame {
        harvest,
        least: least.unwrap_or(0),
        most: most.unwrap_or(NO_UPPER_END),
    }
}

// Puts the harvests, leasts and mosts of a file at the front of the lent lists, and answers how many frames they are.
fn fill(file: &[u8], room: &mut Room) -> usize
    requires harvests_fit { length (harvests_in (words_of file.now)) ≤ length room.old.harvest.now }
    requires leasts_fit { length (leasts_in (words_of file.now)) ≤ length room.old.least.now }
    requires mosts_fit { length (mosts_in (words_of file.now)) ≤ length room.old.most.now }
    ensures harvest { room.new.harvest.now ≡ over (harvests_in (words_of file.now)) room.old.harvest.now }
    ensures least { room.new.least.now ≡ over (leasts_in (words_of file.now)) room.old.least.now }
    ensures most { room.new.most.now ≡ over (mosts_in (words_of file.now)) room.old.most.now }
    ensures same { SameRoom room.old room.new }
    ensures count { result ≡ length (harvests_in (words_of file.now)) }
{
    // Counted by hand: the place moves at a harvest word alone, so that no iterator over words or lists goes with it.
    let mut frames: usize = 0;
    for i in 0..file.len() / 4 {
        match Word::from(nth(file, i)) {
            Word::End(_) => {
                return frames;
            }
            Word::Harvest(_) => {
                let frame = frame_at(file, i);
                room.harvest[frames] = frame.harvest;
                room.least[frames] = frame.least;
                room.most[frames] = frame.most;
                frames += 1;
            }
            _ => {}
        }
    }
    frames
}

// The figures of a file.
fn figures_in(file: &[u8]) -> Figures
    requires { figure_count ≤ length file.now / 4 }
    ensures { result ≡ figures_in (words_of file.now) }
{
    Figures {
        capacity: value_at(file, 0),
        start: value_at(file, 1),
        end: value_at(file, 2),
    }
}

// Reads a file: harvests, leasts and mosts go to the front of the lent lists, the other figures into the answer. The
// lists come apart, as C lends them: what stands in them after the call has a name here, where a `Room` that is handed
// over would leave it without one (`room.exit.1.0.now`).
pub fn read(
    file: &[u8],
    harvest: &mut [u32],
    least: &mut [u32],
    most: &mut [u32],
) -> Result<Header, Refusal>
    ensures { ReadSays file.now harvest.old least.old most.old harvest.new least.new most.new result }
{
    let mut room = Room {
        harvest,
        least,
        most,
    };
    check_read(file, &room)?;
    let frames = fill(file, &mut room);
    Ok(Header {
        figures: figures_in(file),
        frames,
    })
}

// Writing a word file: what is refused is known before anything is written.
ghost use Rattle.std.specs.Prelude.{◌≡◌, ◌+◌, ◌*◌, ◌<◌, ◌≤◌, ◌^◌, length, IfOk};
ghost use Rattle.model.specs.Answer.{asked, leasts_lent, mosts_lent, refused};
ghost use Rattle.model.specs.Lent.{over};
ghost use Rattle.model.specs.Refusals.{first_of};
ghost use Rattle.words.specs.Puts.{Wrote};
ghost use Rattle.wordfile.specs.Form.{figure_count};
ghost use Rattle.wordfile.specs.File.{figure_words, words_of_frames};
ghost use Rattle.wordfile.specs.File.{file_bytes, content_refusals, write_refusal};
ghost use Rattle.wordfile.specs.File.{FiguresFit, FramesFit, Fits};
ghost use Rattle.wordfile.specs.Says.{WriteSays};

use crate::form::FIGURE_COUNT;
use crate::frame::{Frame, frame_size, put_frame};
use model::{Figures, Refusal, Request};
use request::{Whole, check_bounds, check_figures, check_lists, check_that};
use words::{Word, Writer};

// How many words the frames have.
fn frames_size(whole: Whole) -> usize
    ensures is { result ≡ length (words_of_frames (asked whole.entry.request).harvest (asked
        whole.entry.request).bounds) }
    ensures below { result < 2 ^ 32 }
{
    let lists = whole.request.lists;
    let mut size: usize = 0;
    for (least, most) in lists.least.iter().zip(lists.most) {
        size += frame_size(*least, *most);
    }
    size
}

// How many bytes the file asks for: the figures, the words of each frame, the end word.
fn file_size(whole: Whole) -> usize
    ensures { result ≡ length (file_bytes (asked whole.entry.request)) }
{
    4 * (FIGURE_COUNT + frames_size(whole) + 1)
}

// What is refused of what the request holds, written into a list of this room.
fn check_content(whole: Whole, room: usize) -> Result<(), Refusal>
    ensures { refused result ≡ first_of (content_refusals (asked whole.entry.request) room) }
{
    let Request { figures, lists } = whole.request;
    check_that(file_size(whole) <= room, Refusal::WrongLength)?;
    check_figures(figures, lists.harvest)?;
    check_bounds(whole, 1)
}

// Puts the words of all frames behind those before them.
fn put_frames(whole: Whole, writer: &mut Writer)
    requires fits { FramesFit (asked whole.request).harvest (asked whole.request).bounds }
    requires room { writer.old.at + 4 * length (words_of_frames (asked whole.request).harvest (asked
        whole.request).bounds) ≤ length writer.old.out.now }
    ensures { Wrote (words_of_frames (asked whole.entry.request).harvest (asked whole.entry.request).bounds) writer.old
        writer.new }
{
    let lists = whole.request.lists;
    for ((harvest, least), most) in lists.harvest.iter().zip(lists.least).zip(lists.most) {
        let frame = Frame {
            harvest: *harvest,
            least: *least,
            most: *most,
        };
        put_frame(writer, frame);
    }
}

// Puts the file at the front of a list, and answers the place behind its last word.
fn put_file(whole: Whole, out: &mut [u8]) -> usize
    requires fits { Fits (asked whole.request) }
    requires room { length (file_bytes (asked whole.request)) ≤ length out.old }
    ensures list { out.new ≡ over (file_bytes (asked whole.entry.request)) out.old }
    ensures behind { result ≡ length (file_bytes (asked whole.entry.request)) }
{
    let mut writer = Writer { out, at: 0 };
    put_figures(&mut writer, whole.request.figures);
    put_frames(whole, &mut writer);
    writer.put(Word::End(whole.request.lists.harvest.len() as u32));
    writer.at
}

// Puts the words of the figures behind those before them.
fn put_figures(writer: &mut Writer, figures: Figures)
    requires fits { FiguresFit figures }
    requires room { writer.old.at + 4 * figure_count ≤ length writer.old.out.now }
    ensures { Wrote (figure_words figures) writer.old writer.new }
{
    writer.put(Word::Figure(figures.capacity));
    writer.put(Word::Figure(figures.start));
    writer.put(Word::Figure(figures.end));
}

// The request, unless it is refused of being written into a list of this room; the words of lists of wrong lengths are
// not counted.
fn check_write<'a>(request: Request<'a>, room: usize) -> Result<Whole<'a>, Refusal>
    ensures refused { refused result ≡ write_refusal (asked request.entry) (leasts_lent request.entry) (mosts_lent
        request.entry) room }
    ensures same { IfOk result (λ whole. whole.request ≡ request.entry) }
{
    let whole = check_lists(request)?;
    check_content(whole, room)?;
    Ok(whole)
}

// Writes the file of a request to the front of the lent list, and answers the length of the words written.
pub fn write(request: Request, out: &mut [u8]) -> Result<usize, Refusal>
    ensures { WriteSays (asked request.entry) (leasts_lent request.entry) (mosts_lent request.entry) out.old out.new
        result }
{
    let whole = check_write(request, out.len())?;
    Ok(put_file(whole, out))
}

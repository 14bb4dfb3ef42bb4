// The form of a word file: a machine that goes over the words and says where the file closed and with how many frames.
ghost use Rattle.std.specs.Prelude.{◌≡◌, ◌+◌, ◌<◌, ◌^◌};
ghost use Rattle.words.specs.Words.{words_of};
ghost use Rattle.words.specs.Spelt.{Fits, spelt};
ghost use Rattle.wordfile.specs.Form.{bounded, form_of, step_of};
ghost use Rattle.wordfile.specs.Says.{scanned};

use model::Refusal;
use words::{Word, nth};

// The marks of bounds: a least, a most; and a mark above both. Numbers, and no enum: the definitions' machine counts
// marks, and `State` is the very record of its definition, which an enum here would change.
pub const LEAST: u32 = 4;

pub const MOST: u32 = 5;

const NO_MARK: u32 = 6;

// How many figures come first: capacity, start, end.
pub const FIGURE_COUNT: usize = 3;

// The words so far: how many figures, and how many frames; and the lowest mark of a bound that may follow.
#[derive(Clone, Copy)]
pub struct State {
    pub figures: usize,
    pub frames: usize,
    pub mark: u32,
}

// What a word does to the machine: it goes on, it ends, or the word breaks the form. Three cases, which no `Option` or
// `Result` has.
#[derive(Clone, Copy)]
pub enum Step {
    On(State),
    End,
    Wrong,
}

// How many words a closed file has, and how many frames.
#[derive(Clone, Copy)]
pub struct Closed {
    pub words: usize,
    pub frames: usize,
}

// What a bound with this mark does to the machine.
fn bound_by(state: State, mark: u32) -> Step
    requires { mark < 8 }
    ensures { result ≡ bounded state mark }
{
    if mark < state.mark {
        return Step::Wrong;
    }
    Step::On(State {
        mark: mark + 1,
        ..state
    })
}

// What a word does to the machine.
fn step_by(state: State, word: Word) -> Step
    requires frames { state.frames < 2 ^ 63 }
    requires fits { Fits word }
    ensures { result ≡ step_of state (spelt word) }
{
    // Each case asks for itself whether the figures are over: the compiler then goes from a word's kind straight to what
    // it does. A test before the match, or in a case of its own, has it decode the word first, and takes a quarter more.
    let begun = state.figures >= FIGURE_COUNT;
    match word {
        Word::Figure(_) if !begun => Step::On(State {
            figures: state.figures + 1,
            ..state
        }),
        Word::Harvest(_) if begun => Step::On(State {
            frames: state.frames + 1,
            mark: LEAST,
            ..state
        }),
        Word::Least(_) if begun => bound_by(state, LEAST),
        Word::Most(_) if begun => bound_by(state, MOST),
        Word::End(count) if begun && count as usize == state.frames => Step::End,
        _ => Step::Wrong,
    }
}

// Where the form of a file ends, or the word that breaks it.
pub fn scan(file: &[u8]) -> Result<Closed, Refusal>
    ensures { result ≡ scanned (form_of (words_of file.now)) }
{
    let mut state = State {
        figures: 0,
        frames: 0,
        mark: NO_MARK,
    };
    let n = file.len() / 4;
    for i in 0..n {
        match step_by(state, Word::from(nth(file, i))) {
            Step::On(next) => {
                state = next;
            }
            Step::End => {
                return Ok(Closed {
                    words: i + 1,
                    frames: state.frames,
                });
            }
            Step::Wrong => {
                return Err(Refusal::BadWord(i as u64));
            }
        }
    }
    Err(Refusal::BadWord(n as u64))
}

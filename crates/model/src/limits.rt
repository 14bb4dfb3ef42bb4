// The limits of documents 01 and 02 as constants of the code, each named once.

// The most frames of a request: a week of quarter hours.
pub const MAX_FRAMES: usize = 672;

// The words of a word file for one frame: its harvest, its least and its most.
const FRAME_WORDS: usize = 3;

// The words of a word file beside those of its frames: three figures and the end word.
const OTHER_WORDS: usize = 4;

// The most bytes of a word file: four for each word of a request of the most frames.
pub const MAX_FILE_BYTES: usize = 4 * (FRAME_WORDS * MAX_FRAMES + OTHER_WORDS);

// The largest harvest of a frame.
pub const MAX_HARVEST: u32 = 400_000;

// The largest least of a frame, and the largest most that is an upper end.
pub const MAX_BOUND: u32 = 536_870_911;

// As a most: no upper end. A number and no Option, since the C interface lends the mosts as a list of numbers.
pub const NO_UPPER_END: u32 = 4_294_967_295;

// The largest capacity; for the needed capacity, the largest start and end charge.
pub const MAX_CAPACITY: u32 = 1_000_000_000;

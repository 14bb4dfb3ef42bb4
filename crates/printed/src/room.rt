// Room for every listing: of each line the bytes beside its figures, and the digits of the longest figures.
use model::limits::MAX_FRAMES;

// Digits of a number of frames, of an energy, of a loss, of what a list of budgets is worth.
const FRAME_DIGITS: usize = 3;

const ENERGY_DIGITS: usize = 10;

const LOSS_DIGITS: usize = 6;

const WORTH_DIGITS: usize = 11;

// "frames  capacity  needed " and the line end.
const FIRST_ROOM: usize = 26 + FRAME_DIGITS + 2 * ENERGY_DIGITS;

// Three spaces and the line end.
const FRAME_ROOM: usize = 4 + FRAME_DIGITS + 2 * ENERGY_DIGITS + LOSS_DIGITS;

// "worth   " and the line end.
const WORTH_ROOM: usize = 9 + 3 * WORTH_DIGITS;

pub const LISTING_BYTES: usize = FIRST_ROOM + (FRAME_ROOM * MAX_FRAMES + WORTH_ROOM);

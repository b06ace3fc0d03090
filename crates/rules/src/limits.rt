// What a text may hold at most: bytes in all, bytes before a line end, parentheses open at once, digits of a constant,
// different constants, instructions.
pub const TEXT_LIMIT: usize = 16_384;

pub const LINE_LIMIT: usize = 80;

pub const DEPTH_LIMIT: u8 = 16;

pub const DIGIT_LIMIT: usize = 14;

pub const CONSTANT_LIMIT: usize = 46;

pub const INSTRUCTION_LIMIT: usize = 372;

// How long the tape of an accepted text can be: two words for each constant, 26 heads, the instructions and the end word.
pub const LONGEST_TAPE: usize = 491;

// What the devices hold: the cells of a store, the first number that is too large for a cell or a reading, the readings that
// wait at most, the codes of a label at most, and the greatest code, which is the greatest byte.
pub const CELL_COUNT: usize = 1_000;

pub const NUMBER_LIMIT: u64 = 100_000_000_000_000;

pub const QUEUE_LIMIT: usize = 16;

pub const LABEL_LIMIT: usize = 48;

pub const GREATEST_CODE: u64 = 255;

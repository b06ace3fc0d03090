// Marks of a tape's words: the code before a constant, the second operand of a group's head, and the word that ends a tape.
pub const CONSTANT_CODE: u8 = 11;

pub const HEAD_MARK: u64 = 999;

pub const END_WORD: u64 = 0;

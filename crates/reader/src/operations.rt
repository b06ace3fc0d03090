use arrayvec::ArrayVec;
use rules::operation::Operation;

// A line of 80 bytes has at most 19 operations.
pub const CAPACITY: usize = 19;

// A line's operations in the order in which they are worked.
pub type Operations = ArrayVec<Operation, CAPACITY>;

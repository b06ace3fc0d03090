//! The label line of the formula unit: the codes printed on the label so far, at most 48. Two kinds of memory, one meaning.
#![tactic(auto)]

pub mod byte_line;
pub mod copying;
pub mod digit_line;
pub mod label_line;

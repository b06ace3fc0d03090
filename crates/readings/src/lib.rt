//! The reading queue of the formula unit: the numbers from the scale that wait, at most sixteen. Two kinds of memory, one meaning.
#![tactic(auto)]

pub mod digit_queue;
pub mod emptying;
pub mod reading_queue;
pub mod ring_queue;

//! Reads one line of a formula text: its bytes to what it works out and where the result goes, with no heap.
#![tactic(auto)]

mod cursor;
pub mod failure;
pub mod line;
pub mod numbers;
pub mod operations;
mod pairs;

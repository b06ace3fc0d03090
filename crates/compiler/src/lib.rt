//! A formula text to its tape.
#![tactic(auto)]

mod compiling;
mod constants;
mod groups;
mod inventory;
mod lines;
mod survey;
mod tape_writer;
mod words;

pub use compiling::compile;

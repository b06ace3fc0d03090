//! Rows of numbers written in decimal digits, each followed by a comma.
#![tactic(auto)]

ghost use Rattle.digits.specs.Examples.{Examples};

pub mod line;
mod text;

// The worked examples hold of the definitions of this crate, which no other crate knows.
pub fn examples_stand()
    ensures { Examples }
{}

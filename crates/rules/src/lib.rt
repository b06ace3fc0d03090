//! The plain types that every part of the formula unit speaks of; specs/ holds the definitions a reader must believe.
#![tactic(auto)]

pub mod cells;
pub mod formula;
pub mod limits;
pub mod operation;
pub mod ranged;
pub mod refusal;
pub mod reports;
pub mod sign;
pub mod table;
pub mod tape;

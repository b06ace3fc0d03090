//! Three devices side by side with three others: calls that can be made of them, and how their answers compare.
#![tactic(auto)]

pub mod call;
pub mod comparing;
pub mod devices;
pub mod showing;

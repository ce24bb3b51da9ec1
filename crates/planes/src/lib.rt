// The planes of a match: relations on the stretches of a label, joined with each trial counted against a budget.
#![tactic(auto)]

pub mod budget;
pub mod cells;
pub mod fill;
pub mod join;
pub mod repeat;

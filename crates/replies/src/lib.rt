// What the line tool answers to one line.
#![tactic(auto)]

pub mod reply;
pub mod sizes;
mod text;

// Reading the pieces of a source: bytes, repeat counts, code letters and literals.
#![tactic(auto)]

pub mod body;
pub mod count;
pub mod cursor;

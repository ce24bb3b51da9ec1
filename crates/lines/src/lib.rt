// How the line tool takes lines out of chunks of input, and what it does between reads and writes.
#![tactic(auto)]

pub mod chunk;
mod line;
pub mod session;

// The sizes and the bytes of the line tool, each once. That they are those of specs/Sizes is part of the proofs that use them.
use pattern::limits;

// "lines of at most 1,024 bytes, newline not counted"
pub const LINE_LIMIT: usize = 1024;

// Of a line no more is held: enough to see that it is too long.
pub const HELD_LIMIT: usize = LINE_LIMIT + 1;

pub const SCRATCH_SIZE: usize = 65536;

pub const BUDGET: u64 = 10000000;

pub const TAB: u8 = b'\t';

pub const NEWLINE: u8 = b'\n';

pub const SPACE: u8 = b' ';

// The parts of every table fit.
pub const PARTS_ROOM: usize = 2 * limits::ATOM_LIMIT;

// A reply fits, its newline too: the longest is a yes with a byte and the five digits of 16 bits for each part.
pub const OUT_ROOM: usize = 2 + 3 * PARTS_ROOM;

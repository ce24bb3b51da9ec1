// A summary as the code holds it: two lengths, each 256 if above 255 as it is written, and a set of bytes, 64 to a word.
#[derive(Clone, Copy)]
pub struct Packed {
    pub shortest: u64,
    pub longest: u64,
    pub first: [u64; 4],
}

// The set of no bytes. Written out: rows made of `[0; 4]` would be zeroed twice.
pub const NO_BYTES: [u64; 4] = [0, 0, 0, 0];

// That of the empty string alone.
pub const EMPTY: Packed = Packed {
    shortest: 0,
    longest: 0,
    first: NO_BYTES,
};

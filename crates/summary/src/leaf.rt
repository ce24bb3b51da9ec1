// The summaries of bodies that are no groups.
ghost use Rattle.std.specs.Prelude.{◌≡◌, cond, ◌+◌, ◌%◌, ◌<◌, ◌≤◌, eqb, length};
ghost use Rattle.std.proofs.Math.Seq.{slice};
ghost use Rattle.pattern.specs.Codes.{in_set};
ghost use Rattle.summary.specs.Summary.{of_class, of_literal};
ghost use Rattle.summary.specs.Packing.{words_of, packed_of, union};

use super::ops::{LENGTH_CAP, union};
use super::packed::{NO_BYTES, Packed};

// The bytes of A C E L N P U, in the order of a set's bits. A second list: the one in `codes` is asked by the byte.
const CLASSES: [[u64; 4]; 7] = [
    [0x0, 0x7fffffe07fffffe, 0x0, 0x0],
    [0xffffffff, 0x8000000000000000, 0x0, 0x0],
    [0xffffffffffffffff; 4],
    [0x0, 0x7fffffe00000000, 0x0, 0x0],
    [0x3ff000000000000, 0x0, 0x0, 0x0],
    [0xfc00ffff00000000, 0x78000001f8000001, 0x0, 0x0],
    [0x0, 0x7fffffe, 0x0, 0x0],
];

// Bytes with those of a class, if the lowest bit of the set is there.
fn with(bytes: [u64; 4], set: u16, class: [u64; 4]) -> [u64; 4]
    ensures { result ≡ cond (eqb (set % 2) 1) (union bytes class) bytes }
{
    if set % 2 == 1 {
        union(bytes, class)
    } else {
        bytes
    }
}

// The bytes of a set of codes.
fn class_bytes(set: u16) -> [u64; 4]
    ensures { result ≡ words_of (in_set set) }
{
    let mut bytes = NO_BYTES;
    let mut left = set;
    // By a local: a call's array isn't proved to be laid into a variable that a loop keeps.
    for class in CLASSES {
        let more = with(bytes, left, class);
        bytes = more;
        left /= 2;
    }
    bytes
}

// One byte of a set of codes.
pub fn class(set: u16) -> Packed
    ensures { result ≡ packed_of (of_class (in_set set)) }
{
    let first = class_bytes(set);
    if first == NO_BYTES {
        return Packed {
            shortest: LENGTH_CAP,
            longest: 0,
            first,
        };
    }
    Packed {
        shortest: 1,
        longest: 1,
        first,
    }
}

// The literal that lies there, of one byte or more.
pub fn literal(table: &[u8], from: usize, len: usize) -> Packed
    requires { (0 < len) × (from + len ≤ length table.now) }
    ensures { result ≡ packed_of (of_literal (slice from (from + len) table.now)) }
{
    let n = (len as u64).min(LENGTH_CAP);
    let byte = table[from];
    let mut first = NO_BYTES;
    first[usize::from(byte / 64)] = 1 << (byte % 64);
    Packed {
        shortest: n,
        longest: n,
        first,
    }
}

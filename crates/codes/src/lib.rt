// The code letters with their bytes: one table for reading and writing back, and the class test by a list that agrees with it.
#![tactic(auto)]

ghost use Rattle.std.specs.Prelude.{◌≡◌, ◌<◌};
ghost use Rattle.pattern.specs.Codes.{in_set, bit};
ghost use Rattle.codes.specs.Rows.{row_at, letter_at};

use crate::classes::word;

mod classes;

// A capital letter, and four ranges of bytes, each its first and its last; a range from 1 to 0 is empty.
#[derive(Clone, Copy)]
struct Code {
    letter: u8,
    ranges: [u8; 8],
}

// A C E L N P U, in the order of a set's bits.
const CODES: [Code; 7] = [
    Code {
        letter: b'A',
        ranges: *b"AZaz\x01\x00\x01\x00",
    },
    Code {
        letter: b'C',
        ranges: *b"\x00\x1f\x7f\x7f\x01\x00\x01\x00",
    },
    Code {
        letter: b'E',
        ranges: *b"\x00\xff\x01\x00\x01\x00\x01\x00",
    },
    Code {
        letter: b'L',
        ranges: *b"az\x01\x00\x01\x00\x01\x00",
    },
    Code {
        letter: b'N',
        ranges: *b"09\x01\x00\x01\x00\x01\x00",
    },
    Code {
        letter: b'P',
        ranges: *b" /:@[`{~",
    },
    Code {
        letter: b'U',
        ranges: *b"AZ\x01\x00\x01\x00\x01\x00",
    },
];

// The row of the code with bit k.
fn row(k: usize) -> Code
    requires { k < 7 }
    ensures { result ≡ row_at k }
{
    CODES[k]
}

// The letter of the code with bit k, 0 past the last one. No `Option`: its one caller asks for k below 7, and would have an arm that is never taken.
pub fn letter(k: usize) -> u8
    ensures { result ≡ letter_at k }
{
    if k < 7 { row(k).letter } else { 0 }
}

// The bit of a code letter of either case, 128 for any other byte. No `Option`: 128 takes a set to its limit, so one test of the set tells a run of letters.
pub fn bit(c: u8) -> u8
    ensures { result ≡ bit c }
{
    let mut b = 1;
    for code in CODES {
        if code.letter.eq_ignore_ascii_case(&c) {
            return b;
        }
        b *= 2;
    }
    b
}

// A byte is of a code whose bit is in the set.
pub fn in_set(set: u16, b: u8) -> bool
    ensures { result ≡ in_set set b }
{
    let classes = (word(b / 8) >> (b % 8 * 8)) & 0xff;
    (classes & set as u64) != 0
}

// The parts of an atom in the shortest source, each written from a place on; the answer is the place after it. Bytes and place are arguments,
// and no `write!`: a writer of a `&mut` would be lent anew at each call, and could fail.
ghost use Rattle.std.specs.Prelude.{[], ◌∷◌, ◌++◌, ◌+◌, ◌≤◌, ◌<◌, length};
ghost use Rattle.pattern.specs.Numbers.{quote_byte};
ghost use Rattle.pattern.specs.Codes.{all_codes};
ghost use Rattle.pattern.specs.Within.{Fits};
ghost use Rattle.pattern.specs.Decode.{high_of};
ghost use Rattle.pattern.specs.Print.{print_low, print_count, print_set, double};
ghost use Rattle.pattern.specs.Stores.{Puts};

use pattern::repeat::Repeat;
use stores::decimal::put_decimal;
use stores::put;

// The first number of a count, where 0 is left out.
fn low_number(out: &mut [u8], n: usize, low: u16) -> usize
    requires { n + length (print_low low) ≤ length out.old }
    ensures { Puts out.old n (print_low low) out.new result }
{
    if low == 0 {
        return n;
    }
    put_decimal(out, n, low as u64)
}

// A repeat count.
pub fn count(out: &mut [u8], n: usize, low: u16, high: u16) -> usize
    requires { Fits low (high_of high) × (n + length (print_count low (high_of high)) ≤ length out.old) }
    ensures { Puts out.old n (print_count low (high_of high)) out.new result }
{
    if low == high {
        return put_decimal(out, n, low as u64);
    }
    let point = low_number(out, n, low);
    let m = put(out, point, b".");
    if high == Repeat::OPEN {
        return m;
    }
    put_decimal(out, m, high as u64)
}

// The letters of a set, over its seven bits: each has a letter. It is stored by its place: `put` of a slice takes three times the work for one byte.
pub fn letters(out: &mut [u8], n: usize, set: u16) -> usize
    requires { n + length (print_set all_codes set) ≤ length out.old }
    ensures { Puts out.old n (print_set all_codes set) out.new result }
{
    let mut m = n;
    let mut left = set;
    for k in 0..7 {
        if left % 2 == 1 {
            out[m] = codes::letter(k);
            m += 1;
        }
        left /= 2;
    }
    m
}

// The value of a literal with its quotes doubled, stored as the letters are.
fn doubled(out: &mut [u8], n: usize, v: &[u8]) -> usize
    requires { n + length (double v.now) ≤ length out.old }
    ensures { Puts out.old n (double v.now) out.new result }
{
    let mut m = n;
    for &b in v {
        if b == b'"' {
            out[m] = b;
            m += 1;
        }
        out[m] = b;
        m += 1;
    }
    m
}

// A literal.
pub fn literal(out: &mut [u8], n: usize, v: &[u8]) -> usize
    requires { n + length (quote_byte ∷ double v.now ++ quote_byte ∷ []) ≤ length out.old }
    ensures { Puts out.old n (quote_byte ∷ double v.now ++ quote_byte ∷ []) out.new result }
{
    let from = put(out, n, b"\"");
    let to = doubled(out, from, v);
    put(out, to, b"\"")
}

// How many bytes the parts of an atom have in the shortest source.
ghost use Rattle.std.specs.Prelude.{◌≡◌, ◌≤◌, ◌<◌, length};
ghost use Rattle.pattern.specs.Numbers.{set_limit};
ghost use Rattle.pattern.specs.Codes.{all_codes};
ghost use Rattle.pattern.specs.Decode.{high_of};
ghost use Rattle.pattern.specs.Print.{decimal, print_low, print_count, print_set};
ghost use Rattle.table.specs.Headers.{length_bound};
ghost use Rattle.table.specs.Leaves.{text_of};

use pattern::repeat::Repeat;
use stores::decimal::decimal_length;

// How many codes four bits of a set stand for.
const LETTERS: [u8; 16] = *b"\x00\x01\x01\x02\x01\x02\x02\x03\x01\x02\x02\x03\x02\x03\x03\x04";

// How many digits a repeat number has.
fn number_length(n: u16) -> usize
    ensures { (result ≡ length (decimal n)) × (result ≤ 5) }
{
    decimal_length(n as u64)
}

fn low_length(low: u16) -> usize
    ensures { (result ≡ length (print_low low)) × (result ≤ 5) }
{
    if low == 0 { 0 } else { number_length(low) }
}

// The bytes of a repeat count.
pub fn count_length(low: u16, high: u16) -> usize
    ensures { (result ≡ length (print_count low (high_of high))) × (result ≤ 11) }
{
    if high == Repeat::OPEN {
        return low_length(low) + 1;
    }
    if low == high {
        return number_length(low);
    }
    low_length(low) + 1 + number_length(high)
}

// How many letters a set has.
pub fn letters_length(set: u16) -> usize
    requires { set < set_limit }
    ensures { (result ≡ length (print_set all_codes set)) × (result ≤ 7) }
{
    let few = (set % 16) as usize;
    let more = (set / 16) as usize;
    (LETTERS[few] + LETTERS[more]) as usize
}

// The bytes of a literal's value with its quotes doubled, if they are from 32 to 126.
pub fn text_length(v: &[u8]) -> Option<usize>
    requires { length v.now < length_bound }
    ensures { result ≡ text_of v.now }
{
    let mut n = 0;
    for b in v {
        n += match *b {
            b'"' => 2,
            32..=126 => 1,
            _ => return None,
        };
    }
    Some(n)
}

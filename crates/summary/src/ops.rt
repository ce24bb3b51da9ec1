// What is worked out of the summaries of parts.
ghost use Rattle.std.specs.Prelude.{◌≡◌, ◌≤◌};
ghost use Rattle.pattern.specs.Decode.{high_of};
ghost use Rattle.summary.specs.Summary.{length_cap, often};
ghost use Rattle.summary.specs.Packing.{Capped, longest_both, union, both_packed, either_packed, repeat_packed};

use super::packed::{NO_BYTES, Packed};

// A length that is above is written as this.
pub const LENGTH_CAP: u64 = 256;

// The bytes of two sets.
pub fn union(v: [u64; 4], w: [u64; 4]) -> [u64; 4]
    ensures { result ≡ union v w }
{
    [v[0] | w[0], v[1] | w[1], v[2] | w[2], v[3] | w[3]]
}

// The longest of both, where something satisfies the second: 0 if nothing satisfies the first. That lengths are capped is a
// clause and no fact of `Packed`, since the rows that `write_summary` is lent hold anything.
fn longest_both(m: Packed, n: Packed) -> u64
    requires capped { Capped m }
    requires next_capped { Capped n }
    ensures { result ≡ longest_both m n }
{
    if m.longest < m.shortest {
        return 0;
    }
    (m.longest + n.longest).min(LENGTH_CAP)
}

// One after the other.
pub fn both(m: Packed, n: Packed) -> Packed
    requires capped { Capped m }
    requires next_capped { Capped n }
    ensures { result ≡ both_packed m n }
{
    let shortest = (m.shortest + n.shortest).min(LENGTH_CAP);
    if n.longest < n.shortest {
        return Packed {
            shortest,
            longest: 0,
            first: NO_BYTES,
        };
    }
    let longest = longest_both(m, n);
    if m.shortest == 0 {
        return Packed {
            shortest,
            longest,
            first: union(m.first, n.first),
        };
    }
    Packed {
        shortest,
        longest,
        ..m
    }
}

// One or the other.
pub fn either(m: Packed, n: Packed) -> Packed
    ensures { result ≡ either_packed m n }
{
    Packed {
        shortest: m.shortest.min(n.shortest),
        longest: m.longest.max(n.longest),
        first: union(m.first, n.first),
    }
}

// A length as often as the high number allows: the number of an open one is above the cap.
fn often(high: u16, n: u64) -> u64
    requires { n ≤ length_cap }
    ensures { result ≡ often (high_of high) n }
{
    (u64::from(high) * n).min(LENGTH_CAP)
}

// A body as often as a count says.
pub fn repeated(low: u16, high: u16, m: Packed) -> Packed
    requires { Capped m }
    ensures { result ≡ repeat_packed low (high_of high) m }
{
    let shortest = (u64::from(low) * m.shortest).min(LENGTH_CAP);
    let longest = often(high, m.longest);
    if high == 0 {
        return Packed {
            shortest,
            longest,
            first: NO_BYTES,
        };
    }
    Packed {
        shortest,
        longest,
        ..m
    }
}

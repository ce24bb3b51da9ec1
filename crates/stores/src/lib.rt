// Bytes and numbers of a fixed width in lent bytes: read, stored, copied, moved, compared and zeroed. What stores answers the place after.
#![tactic(auto)]

ghost use Rattle.std.specs.Prelude.{◌≡◌, [], ◌∷◌, ◌+◌, ◌≤◌, ◌<◌, length, take, drop};
ghost use Rattle.std.proofs.Math.Seq.{slice};
ghost use Rattle.pattern.specs.Bytes.{equal, le16, little, number_in, zeroed};
ghost use Rattle.pattern.specs.Decode.{field};
ghost use Rattle.pattern.specs.Stores.{Puts};

pub mod decimal;
pub mod moves;

// Bytes from a place on.
pub fn put(to: &mut [u8], at: usize, bytes: &[u8]) -> usize
    requires { at + length bytes.now ≤ length to.old }
    ensures { Puts to.old at bytes.now to.new result }
{
    let end = at + bytes.len();
    to[at..end].copy_from_slice(bytes);
    end
}

// The 16 bits at a place, the lower byte first. Two functions for two widths: `from_le_bytes` is a method of no trait.
pub fn read16(from: &[u8], at: usize) -> u16
    requires { at + 2 ≤ length from.now }
    ensures { result ≡ field from.now at }
{
    u16::from_le_bytes([from[at], from[at + 1]])
}

// The 32 bits at a place, the lowest byte first.
pub fn read32(from: &[u8], at: usize) -> u32
    requires { at + 4 ≤ length from.now }
    ensures { result ≡ number_in (take 4 (drop at from.now)) }
{
    u32::from_le_bytes([from[at], from[at + 1], from[at + 2], from[at + 3]])
}

// The n bytes of a from i on are those of b from j on. A name for `==`, since the promises speak of it.
pub fn equal(a: &[u8], i: usize, b: &[u8], j: usize, n: usize) -> bool
    requires first { i + n ≤ length a.now }
    requires second { j + n ≤ length b.now }
    ensures { result ≡ equal (slice i (i + n) a.now) (slice j (j + n) b.now) }
{
    a[i..i + n] == b[j..j + n]
}

// Zeroes the first n bytes: patient data stays in no buffer. A name for `fill`, since the promises speak of it.
pub fn clear(lent: &mut [u8], n: usize)
    requires { n ≤ length lent.old }
    ensures { lent.new ≡ zeroed n lent.old }
{
    lent[..n].fill(0);
}

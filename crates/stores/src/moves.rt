// Bytes moved within lent bytes, in two directions: `copy_within` of std is a call of `memmove`, and the library trusts no function of C but
// `memcpy` and `memset`.
ghost use Rattle.std.specs.Prelude.{◌≡◌, ◌+◌, ◌≤◌, length, take, drop};
ghost use Rattle.pattern.specs.Stores.{store_at};

// The n bytes at a place to an earlier one, the first of them first.
fn move_down(lent: &mut [u8], from: usize, n: usize, to: usize)
    requires { (from + n ≤ length lent.old) × (to ≤ from) }
    ensures { lent.new ≡ store_at lent.old to (take n (drop from lent.old)) }
{
    for i in 0..n {
        lent[to + i] = lent[from + i];
    }
}

// To a later place, the last of them first.
fn move_up(lent: &mut [u8], from: usize, n: usize, to: usize)
    requires { (to + n ≤ length lent.old) × (from ≤ to) }
    ensures { lent.new ≡ store_at lent.old to (take n (drop from lent.old)) }
{
    for i in (0..n).rev() {
        lent[to + i] = lent[from + i];
    }
}

// To another place, which may share bytes with the first.
pub fn move_bytes(lent: &mut [u8], from: usize, n: usize, to: usize)
    requires { (from + n ≤ length lent.old) × (to + n ≤ length lent.old) }
    ensures { lent.new ≡ store_at lent.old to (take n (drop from lent.old)) }
{
    if to <= from {
        move_down(lent, from, n, to);
        return;
    }
    move_up(lent, from, n, to);
}

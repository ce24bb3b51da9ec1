// Numbers in decimal: how long they are, and stored.
ghost use Rattle.std.specs.Prelude.{◌≡◌, ◌+◌, ◌≤◌, length};
ghost use Rattle.pattern.specs.Print.{decimal};
ghost use Rattle.pattern.specs.Stores.{Puts};

// How many digits a number has: four at a time, and then by comparing. The loop counts digits, no index.
pub fn decimal_length(x: u64) -> usize
    ensures { result ≡ length (decimal x) }
{
    let mut left = x;
    let mut n = 1;
    while 10000 <= left {
        left /= 10000;
        n += 4;
    }
    if left < 10 {
        return n;
    }
    if left < 100 {
        return n + 1;
    }
    if left < 1000 {
        return n + 2;
    }
    n + 3
}

// A number, its last digit first. A loop by hand: it ends by what is left, as decimal_length has just compared it, and a `for` over
// the places takes 6 % more instructions in writing back.
pub fn put_decimal(to: &mut [u8], at: usize, x: u64) -> usize
    requires { at + length (decimal x) ≤ length to.old }
    ensures { Puts to.old at (decimal x) to.new result }
{
    let end = at + decimal_length(x);
    let mut left = x;
    let mut o = end;
    while 10 <= left {
        o -= 1;
        to[o] = b'0' + (left % 10) as u8;
        left /= 10;
    }
    to[at] = b'0' + left as u8;
    end
}

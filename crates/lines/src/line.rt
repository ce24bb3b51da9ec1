// How a line is taken out of a chunk of input.
ghost use Rattle.std.specs.Prelude.{◌≡◌, ◌≤◌, length};
ghost use Rattle.replies.specs.Sizes.{held_limit};
ghost use Rattle.lines.specs.Taking.{TakeLinePost};

use replies::sizes::{HELD_LIMIT, NEWLINE};

// How many bytes of a line are held, where to go on in the chunk, and whether the line ended: the first two stand either way.
#[derive(Clone, Copy)]
pub struct Taken {
    pub held: usize,
    pub next: usize,
    pub ended: bool,
}

// The bytes of a chunk up to a newline, put after the held ones of a line.
pub fn take_line(chunk: &[u8], from: usize, line: &mut [u8], held: usize) -> Taken
    requires { (from ≤ length chunk.now) × (length line.old ≡ held_limit) × (held ≤ held_limit) }
    ensures { TakeLinePost chunk.now from line.old held line.new result }
{
    let mut n = held;
    for at in from..chunk.len() {
        let b = chunk[at];
        if b == NEWLINE {
            return Taken {
                held: n,
                next: at + 1,
                ended: true,
            };
        }
        if n < HELD_LIMIT {
            line[n] = b;
            n += 1;
        }
    }
    Taken {
        held: n,
        next: chunk.len(),
        ended: false,
    }
}

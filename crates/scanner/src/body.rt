// Code letters and literals.
ghost use Rattle.std.specs.Prelude.{◌-◌, ◌≤◌, length};
ghost use Rattle.scanner.specs.Places.{LetterIs};
ghost use Rattle.scanner.specs.Bodies.{CodesFromPost, QuotedPost};

use crate::cursor::{Class, Cursor, Text};
use pattern::limits::SET_LIMIT;
use pattern::refusal::{Fault, Refusal};

// The set of the run of letters that begins with the one before the cursor, and where it ends. One that is no code takes the set to its limit:
// by an `Option` the first letter and each later one would have an exit of their own.
pub fn codes_from(s: &[u8], first: u8, c: Cursor) -> Result<(u8, Cursor), Fault>
    requires { LetterIs s.now (c.at - 1) first c }
    ensures { CodesFromPost s.now (c.at - 1) result }
{
    let mut at = c;
    let mut set = codes::bit(first);
    while set < SET_LIMIT {
        let Class::Letter(b, next) = at.class(s) else {
            return Ok((set, at));
        };
        set |= codes::bit(b);
        at = next;
    }
    Err(Refusal::Code.at(at.at - 1))
}

// The rest of a literal after its first quote: its value goes to the pool from p on. Answers where it ends, and the length of the pool then.
pub fn quoted(s: &[u8], c: Cursor, p: usize, pool: &mut [u8]) -> Result<(Cursor, usize), Fault>
    requires { (c.at ≤ length s.now) × (p ≤ c.at) × (length s.now ≤ length pool.old) }
    ensures { QuotedPost s.now c.at p pool.old pool.new result }
{
    let mut at = c;
    let mut end = p;
    // No iterator: a byte of the value takes one or two bytes of the source.
    loop {
        match at.text(s) {
            Text::Byte(b, next) => {
                pool[end] = b;
                end += 1;
                at = next;
            }
            Text::End(next) => return Ok((next, end)),
            Text::Broken => return Err(Refusal::Form.at(at.at)),
        }
    }
}

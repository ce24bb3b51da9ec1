// The texts of an answer, written into lent bytes. No `write!`: a `Write` into lent bytes can fail, and these cannot.
ghost use Rattle.std.specs.Prelude.{[], ◌∷◌, ◌+◌, ◌*◌, ◌≤◌, ◌<◌, length};
ghost use Rattle.replies.specs.Rooms.{coded_room, refused_room, part_room};
ghost use Rattle.pattern.specs.Bytes.{numbers_in};
ghost use Rattle.pattern.specs.Print.{decimal};
ghost use Rattle.pattern.specs.Refusals.{number_of};
ghost use Rattle.replies.specs.Text.{coded_text, refused_text, unmatched_text, matched_text};
ghost use Rattle.pattern.specs.Stores.{Puts};
ghost use Rattle.replies.specs.Stores.{PutsWithin};

use crate::sizes::SPACE;
use pattern::refusal::{Fault, Refusal};
use stores::decimal::put_decimal;
use stores::put;

// A letter, a space and a number.
fn put_coded(letter: u8, number: u64, out: &mut [u8], at: usize) -> usize
    requires { at + coded_room ≤ length out.old }
    ensures { Puts out.old at (coded_text letter number) out.new result }
{
    let space = put(out, at, &[letter]);
    let start = put(out, space, &[SPACE]);
    put_decimal(out, start, number)
}

// A refusal from compiling.
pub fn put_refused(fault: Fault, out: &mut [u8], at: usize) -> usize
    requires { at + refused_room ≤ length out.old }
    ensures { Puts out.old at (refused_text (number_of fault.refusal) fault.position) out.new result }
{
    let number = u64::from(u32::from(fault.refusal));
    let space = put_coded(b'R', number, out, at);
    let start = put(out, space, &[SPACE]);
    put_decimal(out, start, fault.position as u64)
}

// A refusal from matching.
#[tactic(auto, unfolding(crate::specs::Text::unmatched_text))]
pub fn put_unmatched(refusal: Refusal, out: &mut [u8], at: usize) -> usize
    requires { at + coded_room ≤ length out.old }
    ensures { Puts out.old at (unmatched_text (number_of refusal)) out.new result }
{
    let number = u64::from(u32::from(refusal));
    put_coded(b'M', number, out, at)
}

// A number after a byte that parts it from what is before.
fn put_part(before: u8, part: u16, out: &mut [u8], at: usize) -> usize
    requires { at + part_room ≤ length out.old }
    ensures { PutsWithin part_room (before ∷ decimal part) out.old at out.new result }
{
    let start = put(out, at, &[before]);
    put_decimal(out, start, u64::from(part))
}

// A verdict of yes with its parts.
pub fn put_matched(parts: &[u8], out: &mut [u8], at: usize) -> usize
    requires { at + 1 + 3 * length parts.now ≤ length out.old }
    ensures { PutsWithin (1 + 3 * length parts.now) (matched_text (numbers_in parts.now)) out.old at out.new result }
{
    let mut end = put(out, at, &[b'1']);
    let mut before = SPACE;
    for pair in parts.chunks_exact(2) {
        let part = u16::from_le_bytes([pair[0], pair[1]]);
        end = put_part(before, part, out, end);
        before = b',';
    }
    end
}

// A repeat count, taken as the longest run.
ghost use Rattle.std.specs.Prelude.{◌≡◌, ◌≤◌, length};
ghost use Rattle.scanner.specs.Counts.{DigitsPost, AfterPointPost, CountReadPost, judged, CountPost};

use crate::cursor::Cursor;
use pattern::limits;
use pattern::refusal::{Fault, Refusal};
use pattern::repeat::Repeat;

// The digits at the cursor: their value, and where they end, at the cursor if there are none; or the place, which `judge` makes a fault of, of
// one over the limit.
// The limit ends in 9, so one more digit exceeds it just where the value so far exceeds a tenth of it.
fn digits(s: &[u8], c: Cursor) -> Result<(u16, Cursor), usize>
    requires { c.at ≤ length s.now }
    ensures { DigitsPost s.now c.at result }
{
    let mut at = c;
    let mut v: u16 = 0;
    while let Some((d, next)) = at.digit(s) {
        if limits::NUMBER_LIMIT / 10 < v {
            return Err(at.at);
        }
        v = 10 * v + d;
        at = next;
    }
    Ok((v, at))
}

// The count whose first number is low, from after its point on; or the place of the digit that takes its second number over the limit.
fn after_point(s: &[u8], c: Cursor, low: u16) -> Result<(Repeat, Cursor), usize>
    requires { c.at ≤ length s.now }
    ensures { AfterPointPost s.now c.at low result }
{
    let (high, end) = digits(s, c)?;
    if end.at == c.at {
        Ok((Repeat::open(low), end))
    } else {
        Ok((Repeat::closed(low, high), end))
    }
}

// The count at the cursor and where it ends, if one stands there; or the place of the digit that takes a number of it over the limit.
fn read_count(s: &[u8], c: Cursor) -> Result<Option<(Repeat, Cursor)>, usize>
    requires { c.at ≤ length s.now }
    ensures { CountReadPost s.now c.at result }
{
    let (low, end) = digits(s, c)?;
    if let Some(next) = end.point(s) {
        return Ok(Some(after_point(s, next, low)?));
    }
    if end.at == c.at {
        Ok(None)
    } else {
        Ok(Some((Repeat::exact(low), end)))
    }
}

// The first fault of what was read at start, of an atom after n others, or the count.
fn judge(
    read: Result<Option<(Repeat, Cursor)>, usize>,
    n: usize,
    start: usize,
) -> Result<(Cursor, Repeat), Fault>
    ensures { result ≡ judged n start read }
{
    let found = match read {
        Ok(None) => return Err(Refusal::Form.at(start)),
        Ok(Some((rep, _))) if rep.high < rep.low => return Err(Refusal::Range.at(start)),
        Ok(Some((rep, end))) => Ok((end, rep)),
        Err(position) => Err(Refusal::Number.at(position)),
    };
    if limits::ATOM_LIMIT <= n {
        return Err(Refusal::Atoms.at(start));
    }
    found
}

// The count at the cursor, of an atom after n others, or its first fault.
pub fn count(s: &[u8], c: Cursor, n: usize) -> Result<(Cursor, Repeat), Fault>
    requires { c.at ≤ length s.now }
    ensures { CountPost s.now c.at n result }
{
    judge(read_count(s, c), n, c.at)
}

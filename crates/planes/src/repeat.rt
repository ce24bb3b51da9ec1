// Stretches that are several bodies, one after the other. Plane temp has the body; temp + 1 and temp + 2 by turns have the
// stretches of k bodies and of k + 1.
ghost use Rattle.planes.specs.Whole.{AddPre};
ghost use Rattle.planes.specs.RepeatBody.{AddFromPost, RepeatBodyPre, RepeatBodyPost};

use crate::budget::Budget;
use crate::cells::add;
use crate::join::join;

// Adds what plane from has to plane out, if k is at least low.
fn add_from(scratch: &mut [u8], w: usize, from: usize, out: usize, low: usize, k: usize)
    requires { AddPre scratch.old w from out }
    ensures { AddFromPost scratch.old scratch.new w from out low k }
{
    if low <= k {
        add(scratch, w, from, out);
    }
}

// Plane out: the stretches that are low to times bodies. One join for each number of bodies from 1 to times. The result is
// that of a join. Not inlined: the trials of the join in it want registers of their own.
#[inline(never)]
pub fn repeat_body(
    scratch: &mut [u8],
    w: usize,
    temp: usize,
    out: usize,
    low: usize,
    times: usize,
    budget: Budget,
) -> Option<Budget>
    requires { RepeatBodyPre scratch.old w temp out }
    ensures { RepeatBodyPost scratch.old scratch.new w temp out low times budget result }
{
    let mut counted = budget;
    let mut from = temp + 1;
    let mut to = temp + 2;
    for k in 0..times {
        add_from(scratch, w, from, out, low, k);
        counted = join(scratch, w, temp, from, to, counted)?;
        (from, to) = (to, from);
    }
    add_from(scratch, w, from, out, low, times);
    Some(counted)
}

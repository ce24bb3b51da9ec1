// Joins of two planes into a third: every trial is made here, and counted against the budget.
ghost use Rattle.planes.specs.Join.{JoinPre, JoinPost};

use crate::budget::Budget;
use crate::cells::{blank, cell, set_stretch};

// The join of left and right into out: it holds of i to j where some m has left on i to m and right on m to j, which stands in row j too.
// The result: the budget with the trials counted, none where it ran out.
pub fn join(
    scratch: &mut [u8],
    w: usize,
    left: usize,
    right: usize,
    out: usize,
    budget: Budget,
) -> Option<Budget>
    requires { JoinPre scratch.old w left right out }
    ensures { JoinPost scratch.old scratch.new w left right out budget result }
{
    blank(scratch, w, out);
    let limit = budget.limit;
    let mut spent = budget.spent;
    for j in 0..w {
        for i in 0..j + 1 {
            // The ends are tried from j down, each trial counted. Left by `break` with the end found (docs/DECISIONS.md, Forms by place).
            let mut m = j;
            let found = loop {
                if spent == limit {
                    return None;
                }
                spent += 1;
                if cell(scratch, w, left, i, m) & cell(scratch, w, right, j, m) != 0 {
                    break Some(m);
                }
                if m == i {
                    break None;
                }
                m -= 1;
            };
            if found.is_some() {
                set_stretch(scratch, w, out, i, j, true);
            }
        }
    }
    Some(Budget { limit, spent })
}

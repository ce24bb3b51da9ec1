// One atom after the other, from the last record to the first: the planes that an atom needs are settled before its own.
ghost use Rattle.std.specs.Prelude.{◌≡◌, ◌*◌};
ghost use Rattle.atoms.specs.Atoms.{atoms};
ghost use Rattle.matcher.specs.Settled.{StepPre};
ghost use Rattle.matcher.specs.FillBody.{FillBodyPre};
ghost use Rattle.matcher.specs.Steps.{BeginPost, FillAtomPost, JoinFollowersPre, JoinFollowersPost, SettlePost, SettleAllPost};

use crate::task::Task;
use atoms::{next_atom, record_at};
use planes::budget::Budget;
use planes::cells::{add, blank, holds};
use planes::fill::{Content, fill};
use planes::join::join;
use planes::repeat::repeat_body;

// The budget is passed on from step to step with its trials counted; none where it ran out.
impl Task<'_> {
    // The planes that `repeat_body` starts from: the body in temp, the empty stretches in temp + 1, nothing in 2 x.
    fn begin(&self, scratch: &mut [u8], x: usize)
        requires { FillBodyPre self.now.table.now self.now.label.now scratch.old self.now.w self.now.temp x }
        ensures { BeginPost self.now.table.now self.now.label.now scratch.old scratch.new self.now.w self.now.temp x }
    {
        self.fill_body(scratch, x);
        fill(
            self.table,
            self.label,
            scratch,
            self.w,
            Content::Empty,
            self.temp + 1,
        );
        blank(scratch, self.w, 2 * x);
    }

    // Plane 2 x: the stretches that satisfy atom x. Where low is beyond the label's length, some body is empty, and
    // whether it can be is the same at every place.
    fn fill_atom(&self, scratch: &mut [u8], x: usize, budget: Budget) -> Option<Budget>
        requires { FillBodyPre self.now.table.now self.now.label.now scratch.old self.now.w self.now.temp x }
        ensures { FillAtomPost self.now.table.now self.now.label.now scratch.old scratch.new self.now.w self.now.temp x budget result }
    {
        let own = 2 * x;
        self.begin(scratch, x);
        let r = record_at(self.table, x);
        let n = self.label.len();
        let low = r.low as usize;
        let times = n.min(r.high as usize);
        let counted = repeat_body(scratch, self.w, self.temp, own, low.min(n), times, budget)?;
        if n < low && !holds(scratch, self.w, self.temp, 0, 0) {
            blank(scratch, self.w, own);
        }
        Some(counted)
    }

    // Plane 2 x + 1: the stretches that satisfy atom x and all that follow it in its branch.
    fn join_followers(&self, scratch: &mut [u8], x: usize, budget: Budget) -> Option<Budget>
        requires { JoinFollowersPre self.now.table.now self.now.label.now scratch.old self.now.w x }
        ensures { JoinFollowersPost self.now.table.now self.now.label.now scratch.old scratch.new self.now.w x budget result }
    {
        let own = 2 * x;
        let out = own + 1;
        if record_at(self.table, x).ends == 1 {
            blank(scratch, self.w, out);
            add(scratch, self.w, own, out);
            return Some(budget);
        }
        let next = next_atom(self.table, x);
        join(scratch, self.w, own, 2 * next + 1, out, budget)
    }

    // Both planes of atom x.
    fn settle(&self, scratch: &mut [u8], x: usize, budget: Budget) -> Option<Budget>
        requires { FillBodyPre self.now.table.now self.now.label.now scratch.old self.now.w self.now.temp x }
        ensures { SettlePost self.now.table.now self.now.label.now scratch.old scratch.new self.now.w self.now.temp x budget result }
    {
        let counted = self.fill_atom(scratch, x, budget)?;
        self.join_followers(scratch, x, counted)
    }

    // Both planes of every atom.
    pub fn settle_all(&self, scratch: &mut [u8], budget: Budget) -> Option<Budget>
        requires ready { StepPre self.now.table.now self.now.label.now scratch.old self.now.w }
        requires temp { self.now.temp ≡ 2 * atoms self.now.table.now }
        ensures { SettleAllPost self.now.table.now self.now.label.now scratch.old scratch.new self.now.w self.now.temp budget result }
    {
        let mut counted = budget;
        for x in (0..self.temp / 2).rev() {
            counted = self.settle(scratch, x, counted)?;
        }
        Some(counted)
    }
}

// The plane of an atom's body, from the table, the label, and the planes of the atoms inside.
ghost use Rattle.matcher.specs.FillBody.{FillBodyPre, FillBodyPost, UnionBranchesPre};

use crate::task::Task;
use atoms::{branch_end, literal_at, record_at};
use pattern::kind::Kind;
use planes::cells::{add, blank};
use planes::fill::{Content, fill};

impl Task<'_> {
    // Plane temp for the group x: what satisfies one of its branches.
    fn union_branches(&self, scratch: &mut [u8], x: usize, branches: usize)
        requires { UnionBranchesPre self.now.table.now self.now.label.now scratch.old self.now.w self.now.temp x branches }
        ensures { FillBodyPost self.now.table.now self.now.label.now scratch.old scratch.new self.now.w self.now.temp x }
    {
        blank(scratch, self.w, self.temp);
        let mut first = x + 1;
        for _ in 1..branches {
            add(scratch, self.w, 2 * first + 1, self.temp);
            first = branch_end(self.table, first);
        }
        add(scratch, self.w, 2 * first + 1, self.temp);
    }

    // Plane temp for the body of atom x.
    pub fn fill_body(&self, scratch: &mut [u8], x: usize)
        requires { FillBodyPre self.now.table.now self.now.label.now scratch.old self.now.w self.now.temp x }
        ensures { FillBodyPost self.now.table.now self.now.label.now scratch.old scratch.new self.now.w self.now.temp x }
    {
        let r = record_at(self.table, x);
        match r.kind() {
            Some(Kind::Codes) => fill(
                self.table,
                self.label,
                scratch,
                self.w,
                Content::Codes(r.a),
                self.temp,
            ),
            Some(Kind::Literal) => {
                let v = literal_at(self.table, x);
                let value = Content::Literal(v.from, v.len);
                fill(self.table, self.label, scratch, self.w, value, self.temp);
            }
            Some(Kind::Group) => self.union_branches(scratch, x, r.a as usize),
            None => unreachable!(),
        }
    }
}

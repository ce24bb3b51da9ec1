// The parts: where the stretches of the top-level atoms end, each as long as it can be. No trials: the planes are settled.
ghost use Rattle.std.specs.Prelude.{◌≡◌, suc, ◌+◌, ◌-◌, ◌*◌, ◌<◌, ◌≤◌};
ghost use Rattle.pattern.specs.Decision.{trial};
ghost use Rattle.pattern.specs.Parts.{longest};
ghost use Rattle.planes.specs.Cells.{on, Readable};
ghost use Rattle.matcher.specs.WriteParts.{WritePartsPre, WritePartsPost};

use crate::task::Task;
use atoms::{next_atom, record_at};
use planes::cells::cell;
use stores::put;

// The last m with left on i to m and right on m to n, read in row n; i if there is none.
fn last_end(scratch: &[u8], w: usize, left: usize, right: usize, i: usize, n: usize) -> usize
    requires start { i ≤ n }
    requires end { n < w }
    requires left { Readable scratch.now w left }
    requires right { Readable scratch.now w right }
    ensures { result ≡ i + longest (suc n - i) (trial (on scratch.now w left) (on scratch.now w right) i n) }
{
    for m in (i + 1..n + 1).rev() {
        if cell(scratch, w, left, i, m) & cell(scratch, w, right, n, m) != 0 {
            return m;
        }
    }
    i
}

impl Task<'_> {
    // The ends of the stretches of the top-level atoms.
    pub fn write_parts(&self, scratch: &[u8], parts: &mut [u8])
        requires { WritePartsPre self.now.table.now self.now.label.now scratch.now self.now.w parts.old }
        ensures { WritePartsPost self.now.table.now self.now.label.now parts.old parts.new }
    {
        let n = self.label.len();
        let mut x = 0;
        let mut i = 0;
        let mut at = 0;
        // A `loop`: how many atoms come stands in the records alone.
        loop {
            if record_at(self.table, x).ends == 1 {
                put(parts, at, &(n as u16).to_le_bytes());
                return;
            }
            let next = next_atom(self.table, x);
            i = last_end(scratch, self.w, 2 * x, 2 * next + 1, i, n);
            at = put(parts, at, &(i as u16).to_le_bytes());
            x = next;
        }
    }
}

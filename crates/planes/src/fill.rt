// Planes that need no trial: what they are filled with is of one length, so one stretch for each place is looked at.
ghost use Rattle.planes.specs.Fill.{FillPre, FillPost};
ghost use Rattle.planes.specs.Stretches.{FillStretchesPre, FillStretchesPost};

use crate::cells::{blank, set_stretch};
use stores::equal;

// What a plane is filled with: the empty stretches; one byte of a set; some bytes from a place of the table on, which `FillPost` names.
#[derive(Clone, Copy)]
pub enum Content {
    Empty,
    Codes(u16),
    Literal(usize, usize),
}

// Plane out: of the stretches of n bytes those that held is true of, which is told where each begins.
fn fill_stretches<F: Fn(usize) -> bool>(scratch: &mut [u8], w: usize, out: usize, n: usize, held: F)
    requires { FillStretchesPre scratch.old w out n (F.pre held) }
    ensures { FillStretchesPost scratch.old scratch.new w out n (F.post held) }
{
    blank(scratch, w, out);
    for j in n..w {
        let i = j - n;
        set_stretch(scratch, w, out, i, j, held(i));
    }
}

// Plane out, with what it is to be filled with.
pub fn fill(table: &[u8], label: &[u8], scratch: &mut [u8], w: usize, content: Content, out: usize)
    requires { FillPre table.now label.now scratch.old w content out }
    ensures { FillPost table.now label.now scratch.old scratch.new w content out }
{
    match content {
        Content::Empty => fill_stretches(scratch, w, out, 0, |_| true),
        Content::Codes(set) => {
            fill_stretches(scratch, w, out, 1, |i| codes::in_set(set, label[i]))
        }
        Content::Literal(from, len) => {
            fill_stretches(scratch, w, out, len, |i| equal(label, i, table, from, len))
        }
    }
}

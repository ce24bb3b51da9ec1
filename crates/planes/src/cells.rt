// Planes of w x w cells in one lent slice: the one place that works an index out. What a plane says of the stretch i to j stands in row i and
// in row j. The slice and w are arguments, with what they ask of each other: a struct of both would be taken apart again at each cell.
ghost use Rattle.std.specs.Prelude.{◌≡◌, ◌+◌, ◌*◌, ◌≤◌, ◌<◌, ◌^◌};
ghost use Rattle.planes.specs.Cells.{InRoom, cell, on, bit_of, cell_index, stretch_set};
ghost use Rattle.planes.specs.Whole.{BlankPost, AddPre, AddPost};

// The index of cell (p, i, j).
fn cell_index(w: usize, p: usize, i: usize, j: usize) -> usize
    requires row { i < w }
    requires column { j < w }
    requires room { (p + 1) * w * w < 2 ^ 64 }
    ensures { result ≡ cell_index w p i j }
{
    (p * w + i) * w + j
}

// The byte of cell (p, i, j): 1 where plane p holds of the stretch i to j, else 0.
pub fn cell(scratch: &[u8], w: usize, p: usize, i: usize, j: usize) -> u8
    requires row { i < w }
    requires column { j < w }
    requires room { InRoom scratch.now w p }
    ensures { result ≡ cell scratch.now w p i j }
{
    scratch[cell_index(w, p, i, j)]
}

// Plane p holds of i to j.
pub fn holds(scratch: &[u8], w: usize, p: usize, i: usize, j: usize) -> bool
    requires row { i < w }
    requires column { j < w }
    requires room { InRoom scratch.now w p }
    ensures { result ≡ on scratch.now w p i j }
{
    cell(scratch, w, p, i, j) != 0
}

// Sets both cells of the stretch i to j in plane p to b.
pub fn set_stretch(scratch: &mut [u8], w: usize, p: usize, i: usize, j: usize, b: bool)
    requires row { i < w }
    requires column { j < w }
    requires room { InRoom scratch.old w p }
    ensures { scratch.new ≡ stretch_set scratch.old w p i j (bit_of b) }
{
    let v = u8::from(b);
    let begin = cell_index(w, p, i, j);
    let end = cell_index(w, p, j, i);
    scratch[begin] = v;
    scratch[end] = v;
}

// Takes every stretch out of plane out. A loop, not `fill`, which sets the last byte apart: by it a short match takes 4 % more
// instructions.
pub fn blank(scratch: &mut [u8], w: usize, out: usize)
    requires wide { 1 ≤ w }
    requires room { InRoom scratch.old w out }
    ensures { BlankPost scratch.old scratch.new w out }
{
    let begin = cell_index(w, out, 0, 0);
    for k in 0..w * w {
        scratch[begin + k] = 0;
    }
}

// Adds what plane from has to plane out: one run over all their cells, which a processor takes many at a time. By index, since
// both planes lie in one slice, in either order.
pub fn add(scratch: &mut [u8], w: usize, from: usize, out: usize)
    requires { AddPre scratch.old w from out }
    ensures { AddPost scratch.old scratch.new w from out }
{
    let a = cell_index(w, from, 0, 0);
    let b = cell_index(w, out, 0, 0);
    for k in 0..w * w {
        scratch[b + k] |= scratch[a + k];
    }
}

// What one match works on: every step reads it, and writes to the planes beside it. What a step asks (`FillBodyPre`) speaks of the planes as
// they stand then, so it is no fact of the task.

// A good table and a label that fits; w, the rows of a plane; temp, the first plane after those of the atoms.
#[derive(Clone, Copy)]
pub struct Task<'a> {
    pub table: &'a [u8],
    pub label: &'a [u8],
    pub w: usize,
    pub temp: usize,
}

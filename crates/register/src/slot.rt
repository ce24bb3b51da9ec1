// The slot of a number: the length of its table, and what is kept of its pattern.
ghost use Rattle.std.specs.Prelude.{◌≡◌, ◌&&◌, ◌+◌, ◌≤◌, length, take, drop};
ghost use Rattle.pattern.specs.Bytes.{equal};
ghost use Rattle.summary.specs.Summary.{summary_size};
ghost use Rattle.register.specs.Layout.{slot_size, slot, allowed};
ghost use Rattle.register.specs.Slots.{rows_room, kept_at, IntactPre, summary_place};

use pattern::limits::ATOM_LIMIT;
use stores::{put, read16, read32};
use summary::packed::{EMPTY, Packed};
use summary::write_summary;
use table::{Sizes, TestedTable};

pub const SLOT_SIZE: usize = 44;

// Where a slot has the atoms, the top-level atoms and the summary.
const ATOMS_PLACE: usize = 4;

const TOP_PLACE: usize = 6;

pub const SUMMARY_PLACE: usize = 8;

// Slots are compared so many bytes at a time.
const STEP: usize = 4;

// The numbers of a slot: the bytes of the table, 0 for none as in the layout, the atoms of its pattern, and how many of them stand in no group.
#[derive(Clone, Copy)]
pub struct Kept {
    pub length: usize,
    pub atoms: usize,
    pub top: usize,
}

// Those of the slot at a place.
pub fn kept_at(lent: &[u8], at: usize) -> Kept
    requires { at + slot_size ≤ length lent.now }
    ensures { result ≡ kept_at lent.now at }
{
    Kept {
        length: read32(lent, at) as usize,
        atoms: usize::from(read16(lent, at + ATOMS_PLACE)),
        top: usize::from(read16(lent, at + TOP_PLACE)),
    }
}

// And its summary.
pub fn summary_at(lent: &[u8], at: usize) -> &[u8]
    requires { at + slot_size ≤ length lent.now }
    ensures { result.now ≡ take summary_size (drop (at + summary_place) lent.now) }
{
    &lent[at + SUMMARY_PLACE..at + SLOT_SIZE]
}

// The slot of a good table, by rows with any contents.
fn slot_in(table: TestedTable<'_>, rows: &mut [Packed]) -> [u8; SLOT_SIZE]
    requires { rows_room ≤ length rows.old }
    ensures { result ≡ slot table.entry.bytes.now }
{
    let mut slot = [0u8; SLOT_SIZE];
    let Sizes { atoms, top, .. } = table.sizes;
    put(&mut slot, 0, &(table.bytes.len() as u32).to_le_bytes());
    put(&mut slot, ATOMS_PLACE, &(atoms as u16).to_le_bytes());
    put(&mut slot, TOP_PLACE, &(top as u16).to_le_bytes());
    write_summary(table.bytes, atoms, rows, &mut slot[SUMMARY_PLACE..]);
    slot
}

// The same by rows of its own.
pub fn slot_of(table: TestedTable<'_>) -> [u8; SLOT_SIZE]
    ensures { result ≡ slot table.entry.bytes.now }
{
    let mut rows = [EMPTY; ATOM_LIMIT];
    slot_in(table, &mut rows)
}

// Whether two slots are the same, four bytes at a time: `==` of slices is a call for each slot, and loads 16 bytes at once of those that
// were just stored singly, and waits for them.
fn is_same(a: &[u8], b: &[u8]) -> bool
    requires { (length a.now ≡ slot_size) × (length b.now ≡ slot_size) }
    ensures { result ≡ equal a.now b.now }
{
    for at in (0..SLOT_SIZE).step_by(STEP) {
        if read32(a, at) != read32(b, at) {
            return false;
        }
    }
    true
}

// Whether there is no table or a good one, and the slot is its own.
pub fn is_intact(bytes: &[u8], table: &[u8], rows: &mut [Packed]) -> bool
    requires { IntactPre bytes.now rows.old }
    ensures { result ≡ (allowed table.now && equal bytes.now (slot table.now)) }
{
    if table.is_empty() {
        return is_same(bytes, &[0u8; SLOT_SIZE]);
    }
    match table::test(table) {
        Some(good) => is_same(bytes, &slot_in(good, rows)),
        None => false,
    }
}

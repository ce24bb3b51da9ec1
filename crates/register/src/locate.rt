// The tables of a section: whether all are good and their slots right, and where they lie.
ghost use Rattle.std.specs.Prelude.{◌≡◌, ◌*◌, ◌-◌, ◌≤◌, ◌<◌, length, drop};
ghost use Rattle.register.specs.Maps.{numbers};
ghost use Rattle.register.specs.Layout.{slot_size};
ghost use Rattle.register.specs.Slots.{rows_room};
ghost use Rattle.register.specs.Sections.{held, section_of, tables_end, located, PassPre};

use crate::NUMBERS;
use crate::slot::{SLOT_SIZE, is_intact};
use stores::read32;
use summary::packed::Packed;

pub const DIRECTORY_SIZE: usize = SLOT_SIZE * NUMBERS;

// Where the table of a number begins and ends, no bytes for none as in the layout, and where the last table ends.
#[derive(Clone, Copy)]
pub struct Location {
    pub start: usize,
    pub end: usize,
    pub used: usize,
}

// Where the tables of the numbers from a on and below b end, if all of them are good; the first one is at a place. By number:
// a slot and its table lie apart.
fn pass_tables(section: &[u8], a: usize, b: usize, at: usize, rows: &mut [Packed]) -> Option<usize>
    requires { PassPre section.now b at rows.old }
    ensures { result ≡ tables_end at (held (b - a) (drop (slot_size * a) section.now) (drop at section.now)) }
{
    let mut end = at;
    for k in a..b {
        let slot = SLOT_SIZE * k;
        let n = read32(section, slot) as usize;
        if section.len() - end < n {
            return None;
        }
        let next = end + n;
        if !is_intact(&section[slot..slot + SLOT_SIZE], &section[end..next], rows) {
            return None;
        }
        end = next;
    }
    Some(end)
}

// Where a number's table lies, if the section is good.
pub fn locate(section: &[u8], k: usize, rows: &mut [Packed]) -> Option<Location>
    requires { (k < numbers) × (rows_room ≤ length rows.old) }
    ensures { result ≡ located k (section_of section.now) }
{
    if section.len() < DIRECTORY_SIZE {
        return None;
    }
    let start = pass_tables(section, 0, k, DIRECTORY_SIZE, rows)?;
    let end = pass_tables(section, k, k + 1, start, rows)?;
    let used = pass_tables(section, k + 1, NUMBERS, end, rows)?;
    Some(Location { start, end, used })
}

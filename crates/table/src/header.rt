// The header of a table.
ghost use Rattle.std.specs.Prelude.{◌≡◌, ◌≤◌, length};
ghost use Rattle.pattern.specs.Versions.{header_size};
ghost use Rattle.pattern.specs.Decode.{version_of};
ghost use Rattle.table.specs.Headers.{marked, header_of, read_header};

use crate::layout;
use crate::layout::{ATOMS_PLACE, Format, RECORD_SIZE, Version};
use stores::read16;

// How many atoms and how many bytes of pool there are, where the records and the pool begin, and what depends on the version.
#[derive(Clone, Copy)]
pub struct Header {
    pub atoms: usize,
    pub length: usize,
    pub records: usize,
    pub pool: usize,
    pub format: Format,
}

// What the header says, where there are bytes enough for one.
pub fn header_at(table: &[u8]) -> Header
    requires { header_size (version_of table.now) ≤ length table.now }
    ensures { result ≡ header_of table.now }
{
    let version = Version::of(table);
    let format = version.format();
    let atoms = usize::from(version.count_in(table));
    let place = ATOMS_PLACE + format.width;
    let records = place + 2;
    Header {
        atoms,
        length: read16(table, place) as usize,
        records,
        pool: records + RECORD_SIZE * atoms,
        format,
    }
}

// Whether a table begins with the mark and a version.
fn is_marked(table: &[u8]) -> bool
    ensures { result ≡ marked table.now }
{
    table.starts_with(&Version::Two.first_bytes()) || table.starts_with(&Version::One.first_bytes())
}

// The header, if the mark and a version are there and the length is what the header says.
pub fn read_header(table: &[u8]) -> Option<Header>
    ensures { result ≡ read_header table.now }
{
    if !is_marked(table) || table.len() < layout::HEADER_SIZE {
        return None;
    }
    let h = header_at(table);
    if table.len() != h.pool + h.length {
        return None;
    }
    Some(h)
}

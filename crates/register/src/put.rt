// A table put in its number's place in a section: the tables after it move.
ghost use Rattle.std.specs.Prelude.{◌≡◌, ◌+◌, ◌≤◌, length};
ghost use Rattle.pattern.specs.Stores.{store_at};
ghost use Rattle.register.specs.Sections.{section_of, placed, PutTablePre};

use crate::locate::Location;
use crate::slot::SLOT_SIZE;
use stores::moves::move_bytes;
use stores::put;

// A table's bytes from a place on. A loop: of `put`, with bytes of any number, LLVM makes a call of `memmove`, and the library trusts no function
// of C but `memcpy` and `memset`.
fn copy_table(section: &mut [u8], start: usize, table: &[u8])
    requires { start + length table.now ≤ length section.old }
    ensures { section.new ≡ store_at section.old start table.now }
{
    for i in 0..table.len() {
        section[start + i] = table[i];
    }
}

// Instead of the table that lies there, with its slot; no bytes for no table any more.
pub fn put_table(section: &mut [u8], k: usize, at: Location, table: &[u8], slot: &[u8])
    requires { PutTablePre section.old k at table.now slot.now }
    ensures { section.new ≡ placed (section_of section.old) section.old k table.now }
{
    let start = at.start;
    let end = at.end;
    move_bytes(section, end, at.used - end, start + table.len());
    copy_table(section, start, table);
    put(section, SLOT_SIZE * k, slot);
}

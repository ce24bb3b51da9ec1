// Tables: their layout, header and records, the writer, and the test whether bytes are a good table.
#![tactic(auto)]

pub mod header;
mod layout;
mod lengths;
pub mod record;
mod walk;
pub mod write;

ghost use Rattle.std.specs.Prelude.{Some, ◌≡◌, IfSome, option_map};
ghost use Rattle.pattern.specs.Decode.{decode};
ghost use Rattle.table.specs.Tested.{tested};

use walk::{Payload, Place};

// A good table: its atoms, how many of them stand in no group, and the bytes of its shortest source.
#[derive(Clone, Copy)]
pub struct Sizes {
    pub atoms: usize,
    pub top: usize,
    pub source: usize,
}

// A table that was tested and is good: its bytes, and what it is of.
#[derive(Clone, Copy)]
pub struct TestedTable<'a> {
    pub bytes: &'a [u8],
    pub sizes: Sizes,
    ghost good: { Some sizes ≡ tested (decode bytes.now) },
}

// Whether bytes are a good table, and what of: one walk over the records.
pub fn test(table: &[u8]) -> Option<TestedTable<'_>>
    ensures sizes { option_map (λ t. t.sizes) result ≡ tested (decode table.now) }
    ensures bytes { IfSome result (λ t. t.bytes.now ≡ table.now) }
{
    let h = header::read_header(table)?;
    if h.format.atoms < h.atoms {
        return None;
    }
    let start = Place {
        atom: 0,
        pool: 0,
        source: 0,
    };
    let payload = Payload {
        bytes: &table[h.records..],
        atoms: h.atoms,
    };
    let (end, top) = payload.pattern(start, 0)?;
    if end.atom != h.atoms || end.pool != h.length || h.format.source < end.source {
        return None;
    }
    let sizes = Sizes {
        atoms: h.atoms,
        top,
        source: end.source,
    };
    Some(TestedTable {
        bytes: table,
        sizes,
    })
}

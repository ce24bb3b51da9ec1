// The record of an atom, as a table has it.
ghost use Rattle.std.specs.Prelude.{◌≡◌, eqb, ◌+◌, ◌*◌};
ghost use Rattle.pattern.specs.Numbers.{group_kind, record_size};
ghost use Rattle.pattern.specs.Kinds.{kind_of};
ghost use Rattle.pattern.specs.Decode.{rec_at};
ghost use Rattle.table.specs.Fields.{record_of, RecordIn};

use crate::layout::RECORD_SIZE;
use pattern::kind::Kind;
use stores::read16;

// What a record says. Kind and ends are bytes as they stand: `record_of` is of any table, good or not.
#[derive(Clone, Copy)]
pub struct Record {
    pub kind: u8,
    pub ends: u8,
    pub low: u16,
    pub high: u16,
    pub a: u16,
    pub b: u16,
}

impl Record {
    // The kind, where its byte is that of one.
    pub fn kind(self) -> Option<Kind>
        ensures { result ≡ kind_of self.kind }
    {
        Kind::of(self.kind)
    }

    // Whether the atom is a group.
    pub fn is_group(self) -> bool
        ensures { result ≡ eqb self.kind group_kind }
    {
        self.kind == Kind::Group as u8
    }
}

// The record of atom i, where the records begin at a place.
pub fn record_at(table: &[u8], records: usize, i: usize) -> Record
    requires { RecordIn table.now records i }
    ensures { result ≡ record_of (rec_at table.now (records + record_size * i)) }
{
    let at = records + RECORD_SIZE * i;
    Record {
        kind: table[at],
        ends: table[at + 1],
        low: read16(table, at + 2),
        high: read16(table, at + 4),
        a: read16(table, at + 6),
        b: read16(table, at + 8),
    }
}

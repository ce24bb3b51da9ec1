// The atoms of a good table by their index: their records, their literals, and where they and their branches end. `AtomIn` ties a table and
// an index; a struct of both would be made for one look.
#![tactic(auto)]

ghost use Rattle.std.specs.Prelude.{◌≡◌, ◌+◌};
ghost use Rattle.pattern.specs.Syntax.{size};
ghost use Rattle.atoms.specs.Atoms.{node, head, AtomIn};
ghost use Rattle.atoms.specs.Records.{RecordOf, LiteralIn, LiteralAt};

use table::header::header_at;
use table::record;
use table::record::Record;

// Where the value of a literal lies in the table, and its length: planes are filled from a place of the table.
#[derive(Clone, Copy)]
pub struct Span {
    pub from: usize,
    pub len: usize,
}

// The record of atom x.
pub fn record_at(table: &[u8], x: usize) -> Record
    requires { AtomIn table.now x }
    ensures { RecordOf table.now x result }
{
    let h = header_at(table);
    record::record_at(table, h.records, x)
}

// The value of the literal x; an empty one lies anywhere.
pub fn literal_at(table: &[u8], x: usize) -> Span
    requires { LiteralIn table.now x }
    ensures { LiteralAt table.now x result.from result.len }
{
    let h = header_at(table);
    let r = record::record_at(table, h.records, x);
    let len = r.b as usize;
    if len == 0 {
        return Span { from: 0, len };
    }
    Span {
        from: h.pool + r.a as usize,
        len,
    }
}

// The index after atom x and its contents.
pub fn next_atom(table: &[u8], x: usize) -> usize
    requires { AtomIn table.now x }
    ensures { result ≡ x + size (head (node table.now x)) }
{
    let r = record_at(table, x);
    if r.is_group() { r.b as usize } else { x + 1 }
}

// The index after the branch that goes on at atom x.
pub fn branch_end(table: &[u8], x: usize) -> usize
    requires { AtomIn table.now x }
    ensures { result ≡ x + size (node table.now x) }
{
    let mut last = x; // how many atoms there are to pass stands in their records alone
    while record_at(table, last).ends != 1 {
        last = next_atom(table, last);
    }
    next_atom(table, last)
}

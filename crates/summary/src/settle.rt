// The rows of a table's atoms, from the last to the first: those that an atom needs are after its own. `Settling` ties the rows to the table
// and grows from call to call, so it is no fact of either.
ghost use Rattle.std.specs.Prelude.{◌≡◌, ◌≤◌, suc, length};
ghost use Rattle.pattern.specs.Decode.{tree_of, version_of};
ghost use Rattle.pattern.specs.Versions.{header_size};
ghost use Rattle.table.specs.Headers.{header_of};
ghost use Rattle.atoms.specs.Atoms.{atoms, node, head, body_of};
ghost use Rattle.atoms.specs.Records.{GroupIn, RecordOf};
ghost use Rattle.summary.specs.Summary.{summary_of};
ghost use Rattle.summary.specs.Packing.{packed_of};
ghost use Rattle.summary.specs.Rows.{Room, Settled, Settling, Next};

use super::packed::{EMPTY, Packed};
use super::{leaf, ops};
use atoms::{branch_end, next_atom};
use pattern::kind::Kind;
use table::header::{Header, header_at};
use table::record::{Record, record_at};

// The branches of the group x, which are this many.
fn branches(table: &[u8], rows: &[Packed], x: usize, count: usize) -> Packed
    requires settling { Settling table.now rows.now x }
    requires group { GroupIn table.now x count }
    ensures { result ≡ packed_of (summary_of (body_of (head (node table.now x)))) }
{
    let mut at = x + 1;
    let mut m = rows[at];
    for _ in 1..count {
        at = branch_end(table, at);
        let joined = ops::either(m, rows[at]);
        m = joined;
    }
    m
}

// A good table, and where its records and values lie.
#[derive(Clone, Copy)]
pub struct Records<'a> {
    table: &'a [u8],
    header: Header,
    ghost read: { header ≡ header_of table.now },
}

impl<'a> Records<'a> {
    // Those of a table.
    pub fn of(table: &'a [u8]) -> Records<'a>
        requires { header_size (version_of table.now) ≤ length table.now }
        ensures { result.table.now ≡ table.now }
    {
        Records {
            table,
            header: header_at(table),
        }
    }

    // The body of atom x, whose record is r.
    fn body(self, rows: &[Packed], x: usize, r: Record) -> Packed
        requires settling { Settling self.table.now rows.now x }
        requires fields { RecordOf self.table.now x r }
        ensures { result ≡ packed_of (summary_of (body_of (head (node self.entry.table.now x)))) }
    {
        match r.kind() {
            Some(Kind::Codes) => leaf::class(r.a),
            Some(Kind::Literal) if r.b == 0 => EMPTY,
            Some(Kind::Literal) => {
                leaf::literal(self.table, self.header.pool + r.a as usize, r.b as usize)
            }
            Some(Kind::Group) => branches(self.table, rows, x, r.a as usize),
            None => unreachable!(),
        }
    }

    // Atom x with its followers; next is the row after its own. Only an atom that can be empty needs more of a follower than its lengths.
    fn atom(self, rows: &[Packed], x: usize, next: Packed) -> Packed
        requires settling { Settling self.table.now rows.now x }
        requires next { Next self.table.now (suc x) next }
        ensures { result ≡ packed_of (summary_of (node self.entry.table.now x)) }
    {
        let r = record_at(self.table, self.header.records, x);
        let inner = self.body(rows, x, r);
        let own = ops::repeated(r.low, r.high, inner);
        if r.ends == 1 {
            return own;
        }
        if own.shortest == 0 {
            return ops::both(own, rows[next_atom(self.table, x)]);
        }
        if r.is_group() {
            return ops::both(own, rows[r.b as usize]);
        }
        ops::both(own, next)
    }

    // Row x, the rows after it being settled.
    fn settle(self, rows: &mut [Packed], x: usize, next: Packed) -> Packed
        requires settling { Settling self.table.now rows.old x }
        requires next { Next self.table.now (suc x) next }
        ensures settled { Settled self.entry.table.now rows.new x }
        ensures next { Next self.entry.table.now x result }
    {
        let m = self.atom(rows, x, next);
        rows[x] = m;
        m
    }

    // The summary of the pattern; there is a row for each of its atoms.
    pub fn settle_all(self, rows: &mut [Packed], count: usize) -> Packed
        requires room { Room self.table.now rows.old }
        requires count { count ≡ atoms self.table.now }
        ensures { result ≡ packed_of (summary_of (tree_of self.entry.table.now)) }
    {
        let mut m = EMPTY;
        for x in (0..count).rev() {
            let more = self.settle(rows, x, m);
            m = more;
        }
        m
    }
}

// Writing a table: the record of each atom into a buffer, then header, records and pool into lent bytes.
ghost use Rattle.std.specs.Prelude.{◌≡◌, [], ◌∷◌, ◌+◌, ◌*◌, ◌≤◌, length};
ghost use Rattle.pattern.specs.Numbers.{record_size};
ghost use Rattle.table.specs.Write.{rec_of, put_records, WriteTablePre, WriteTablePost};

use crate::layout;
use pattern::limits;
use pattern::repeat::Repeat;
use stores::put;

// No heap: the records of every pattern fit.
pub const RECORDS_ROOM: usize = layout::RECORD_SIZE * limits::ATOM_LIMIT;

// Every table fits.
pub const TABLE_ROOM: usize = layout::HEADER_SIZE + RECORDS_ROOM + limits::SOURCE_LIMIT;

// A source as short as most are: what it needs is zeroed in a fraction of the time. It has no more atoms and bytes of literals than bytes.
pub const SHORT_SOURCE: usize = 64;

pub const SHORT_RECORDS: usize = layout::RECORD_SIZE * SHORT_SOURCE;

pub const SHORT_TABLE: usize = layout::HEADER_SIZE + SHORT_RECORDS;

// The record of atom i, in a buffer of records. Kind and last are bytes, since it promises the record of any two.
pub fn put_record(recs: &mut [u8], i: usize, kind: u8, last: u8, rep: Repeat, a: u16, b: u16)
    requires { record_size * i + record_size ≤ length recs.old }
    ensures { recs.new ≡ put_records recs.old i (rec_of kind last rep a b ∷ []) }
{
    let low = put(recs, layout::RECORD_SIZE * i, &[kind, last]);
    let high = put(recs, low, &rep.low.to_le_bytes());
    let first = put(recs, high, &rep.high.to_le_bytes());
    let second = put(recs, first, &a.to_le_bytes());
    put(recs, second, &b.to_le_bytes());
}

// The table of the first atoms of these records and the first text bytes of this pool, which may be longer: its length, or none where the
// room is too little, and then nothing is written.
pub fn write_table(
    atoms: usize,
    text: usize,
    recs: &[u8],
    pool: &[u8],
    table: &mut [u8],
) -> Option<usize>
    requires { WriteTablePre atoms text recs.now pool.now }
    ensures { WriteTablePost atoms text recs.now pool.now table.old result table.new }
{
    let from = layout::HEADER_SIZE + layout::RECORD_SIZE * atoms;
    let total = from + text;
    if table.len() < total {
        return None;
    }
    let mark = layout::Version::Two.first_bytes();
    put(table, 0, &mark);
    put(table, layout::ATOMS_PLACE, &(atoms as u16).to_le_bytes());
    put(table, layout::LENGTH_PLACE, &(text as u16).to_le_bytes());
    put(
        table,
        layout::HEADER_SIZE,
        &recs[..layout::RECORD_SIZE * atoms],
    );
    put(table, from, &pool[..text]);
    Some(total)
}

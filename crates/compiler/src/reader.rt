// The readers of a pattern, an atom and a group call each other. Records and literal values go to two lent buffers: a struct of two `&mut`
// would be taken apart again at each call. What a reader asks (`ReadPre`) ties all its arguments, so it is no fact of one of them.
ghost use Rattle.std.specs.Prelude.{◌-◌, ◌≤◌, length};
ghost use Rattle.scanner.specs.Places.{LetterIs};
ghost use Rattle.compiler.specs.Readers.{ReadPre, BuffersFit, ReadLeafPre, ReadCodesPost, ReadLiteralPost, ReadPatternPost, ReadAtomPost, ReadGroupPost};

use pattern::kind::Kind;
use pattern::limits;
use pattern::refusal::{Fault, Refusal};
use pattern::repeat::Repeat;
use scanner::body::{codes_from, quoted};
use scanner::count::count;
use scanner::cursor::{Class, Cursor, Separator, ends_at};
use table::write::put_record;

// How far a reader has come: the place in the source, the atoms so far, and the length of the pool.
#[derive(Clone, Copy)]
pub struct ReaderState {
    pub at: Cursor,
    pub atoms: usize,
    pub pool: usize,
}

// An atom of code letters, after its count and its first letter.
fn read_codes(
    s: &[u8],
    first: u8,
    st: ReaderState,
    rep: Repeat,
    recs: &mut [u8],
) -> Result<ReaderState, Fault>
    requires { LetterIs s.now (st.at.at - 1) first st.at × ReadLeafPre s.now (st.at.at - 1) st.atoms st.pool recs.old }
    ensures { ReadCodesPost s.now (st.at.at - 1) st.atoms st.pool rep recs.old recs.new result }
{
    let (set, at) = codes_from(s, first, st.at)?;
    put_record(
        recs,
        st.atoms,
        u8::from(Kind::Codes),
        u8::from(ends_at(s, at)),
        rep,
        u16::from(set),
        0,
    );
    Ok(ReaderState {
        at,
        atoms: st.atoms + 1,
        ..st
    })
}

// An atom that is a literal, after its count and its first quote.
fn read_literal(
    s: &[u8],
    st: ReaderState,
    rep: Repeat,
    recs: &mut [u8],
    pool: &mut [u8],
) -> Result<ReaderState, Fault>
    requires { ReadLeafPre s.now st.at.at st.atoms st.pool recs.old × (length s.now ≤ length pool.old) }
    ensures { ReadLiteralPost s.now st.at.at st.atoms st.pool rep recs.old recs.new pool.old pool.new result }
{
    let (at, end) = quoted(s, st.at, st.pool, pool)?;
    let length = (end - st.pool) as u16;
    put_record(
        recs,
        st.atoms,
        u8::from(Kind::Literal),
        u8::from(ends_at(s, at)),
        rep,
        st.pool as u16,
        length,
    );
    Ok(ReaderState {
        at,
        atoms: st.atoms + 1,
        pool: end,
    })
}

#[cycle(read_atom_read_group_read_pattern)]
pub fn read_pattern(
    s: &[u8],
    st: ReaderState,
    depth: usize,
    recs: &mut [u8],
    pool: &mut [u8],
) -> Result<ReaderState, Fault>
    requires { ReadPre s.now st depth × BuffersFit s.now recs.old pool.old }
    ensures { ReadPatternPost s.now st depth recs.old recs.new pool.old pool.new result }
{
    // A `loop`: how many atoms come is seen only as they are read.
    let mut from = st;
    loop {
        from = read_atom(s, from, depth, recs, pool)?;
        if ends_at(s, from.at) {
            return Ok(from);
        }
    }
}

#[cycle(read_atom_read_group_read_pattern)]
fn read_atom(
    s: &[u8],
    st: ReaderState,
    depth: usize,
    recs: &mut [u8],
    pool: &mut [u8],
) -> Result<ReaderState, Fault>
    requires { ReadPre s.now st depth × BuffersFit s.now recs.old pool.old }
    ensures { ReadAtomPost s.now st depth recs.old recs.new pool.old pool.new result }
{
    let (next, rep) = count(s, st.at, st.atoms)?;
    match next.class(s) {
        Class::Letter(b, at) => read_codes(s, b, ReaderState { at, ..st }, rep, recs),
        Class::Quote(at) => read_literal(s, ReaderState { at, ..st }, rep, recs, pool),
        Class::Opening(at) => {
            if limits::DEPTH_LIMIT <= depth {
                return Err(Refusal::Depth.at(next.at));
            }
            let inner = ReaderState {
                at,
                atoms: st.atoms + 1,
                ..st
            };
            let (end, branches) = read_group(s, inner, depth + 1, recs, pool)?;
            let last = u8::from(ends_at(s, end.at));
            put_record(
                recs,
                st.atoms,
                u8::from(Kind::Group),
                last,
                rep,
                branches as u16,
                end.atoms as u16,
            );
            Ok(end)
        }
        Class::Other => Err(Refusal::Form.at(next.at)),
    }
}

// The branches of a group, with the closing parenthesis: where it ends, and how many branches it has.
#[cycle(read_atom_read_group_read_pattern)]
fn read_group(
    s: &[u8],
    st: ReaderState,
    depth: usize,
    recs: &mut [u8],
    pool: &mut [u8],
) -> Result<(ReaderState, usize), Fault>
    requires { ReadPre s.now st depth × BuffersFit s.now recs.old pool.old }
    ensures { ReadGroupPost s.now st depth recs.old recs.new pool.old pool.new result }
{
    // A `loop`: how many branches come is seen only as they are read.
    let mut from = st;
    let mut branches: usize = 0;
    loop {
        let end = read_pattern(s, from, depth, recs, pool)?;
        branches += 1;
        match end.at.separator(s) {
            Separator::Comma(at) => from = ReaderState { at, ..end },
            Separator::Closing(at) => return Ok((ReaderState { at, ..end }, branches)),
            Separator::Other => return Err(Refusal::Form.at(end.at.at)),
        }
    }
}

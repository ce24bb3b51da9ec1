// Compiling pattern source to a table: read into local buffers, and then, if there is room, write.
#![tactic(auto)]

ghost use Rattle.std.specs.Prelude.{◌≡◌, ◌<◌, ◌^◌};
ghost use Rattle.pattern.specs.Answers.{compile_of};
ghost use Rattle.compiler.specs.Readers.{SizesFit};
ghost use Rattle.compiler.specs.Compiling.{answer_of};

mod reader;

use crate::reader::{ReaderState, read_pattern};
use pattern::limits;
use pattern::refusal::{Fault, Refusal};
use scanner::cursor::Cursor;
use table::write::{RECORDS_ROOM, SHORT_RECORDS, SHORT_SOURCE, write_table};

// A source that is not too long, read into buffers of these sizes, which it fits.
fn compile_in<const RECORDS: usize, const TEXT: usize>(
    source: &[u8],
    table: &mut [u8],
) -> Result<usize, Fault>
    requires fits { SizesFit source.now RECORDS TEXT }
    requires small { (RECORDS < 2 ^ 63) × (TEXT < 2 ^ 63) }
    ensures { record { answer = answer_of result; bytes = table.new } ≡ compile_of source.now table.old }
{
    let mut recs = [0u8; RECORDS];
    let mut pool = [0u8; TEXT];
    let start = ReaderState {
        at: Cursor { at: 0 },
        atoms: 0,
        pool: 0,
    };
    let end = read_pattern(source, start, 0, &mut recs, &mut pool)?;
    let position = end.at.at;
    if position < source.len() {
        return Err(Refusal::Form.at(position));
    }
    write_table(end.atoms, end.pool, &recs, &pool, table).ok_or(Refusal::Room.at(position))
}

// The length of the table, or a refusal and its position. A refused call has written nothing.
pub fn compile(source: &[u8], table: &mut [u8]) -> Result<usize, Fault>
    ensures { record { answer = answer_of result; bytes = table.new } ≡ compile_of source.now table.old }
{
    if limits::SOURCE_LIMIT < source.len() {
        return Err(Refusal::Long.at(limits::SOURCE_LIMIT));
    }
    if source.len() <= SHORT_SOURCE {
        return compile_in::<SHORT_RECORDS, SHORT_SOURCE>(source, table);
    }
    compile_in::<RECORDS_ROOM, { limits::SOURCE_LIMIT }>(source, table)
}

// The reply to one line: it is cut at its first tab, the source compiled and the label matched. Output and place are arguments, with room for a
// reply by a clause: a writer of a `&mut` would be lent anew at each call.
ghost use Rattle.std.specs.Prelude.{◌≡◌, ◌==◌, ◌+◌, ◌<◌, ◌≤◌, ◌^◌, length, replicate, position};
ghost use Rattle.replies.specs.Sizes.{tab_byte, reply_room};
ghost use Rattle.replies.specs.Reply.{label_reply, source_reply, reply, answer_to};
ghost use Rattle.replies.specs.Rooms.{TableFits};
ghost use Rattle.replies.specs.Stores.{Replied};

use crate::sizes::{BUDGET, LINE_LIMIT, NEWLINE, PARTS_ROOM, TAB};
use crate::text;
use pattern::refusal::Refusal;
use stores::put;
use table::TestedTable;
use table::write::{SHORT_SOURCE, SHORT_TABLE, TABLE_ROOM};

// Where the first tab stands.
fn tab_at(line: &[u8]) -> Option<usize>
    ensures { result ≡ position (λ b. b == tab_byte) line.now }
{
    line.iter().position(|b| *b == TAB)
}

// A label under a table that was tested.
fn put_match(
    table: TestedTable<'_>,
    label: &[u8],
    scratch: &mut [u8],
    out: &mut [u8],
    at: usize,
) -> usize
    requires { at + reply_room ≤ length out.old }
    ensures { Replied reply_room (label_reply table.entry.bytes.now label.now scratch.old) out.old at scratch.new out.new result }
{
    let mut parts = [0u8; PARTS_ROOM];
    match matcher::match_good(table, label, scratch, &mut parts, BUDGET) {
        Ok(verdict) if verdict.matches => text::put_matched(&parts[..2 * table.sizes.top], out, at),
        Ok(_) => put(out, at, &[b'0']),
        Err(refusal) => text::put_unmatched(refusal, out, at),
    }
}

// A label under a table.
fn put_label(table: &[u8], label: &[u8], scratch: &mut [u8], out: &mut [u8], at: usize) -> usize
    requires { at + reply_room ≤ length out.old }
    ensures { Replied reply_room (label_reply table.now label.now scratch.old) out.old at scratch.new out.new result }
{
    let Some(good) = table::test(table) else {
        return text::put_unmatched(Refusal::Table, out, at);
    };
    put_match(good, label, scratch, out, at)
}

// A source and a label, by a table of so many bytes.
fn put_source<const ROOM: usize>(
    source: &[u8],
    label: &[u8],
    scratch: &mut [u8],
    out: &mut [u8],
    at: usize,
) -> usize
    requires fits { TableFits source.now (replicate ROOM 0) }
    requires small { ROOM < 2 ^ 63 }
    requires room { at + reply_room ≤ length out.old }
    ensures { Replied reply_room (source_reply source.now label.now scratch.old) out.old at scratch.new out.new result }
{
    let mut table = [0u8; ROOM];
    match compiler::compile(source, &mut table) {
        Ok(n) => put_label(&table[..n], label, scratch, out, at),
        Err(fault) => text::put_refused(fault, out, at),
    }
}

// A source and a label. Not inlined: a line that is too long or has no tab takes no stack for a table.
#[inline(never)]
fn put_cut(source: &[u8], label: &[u8], scratch: &mut [u8], out: &mut [u8], at: usize) -> usize
    requires { at + reply_room ≤ length out.old }
    ensures { Replied reply_room (source_reply source.now label.now scratch.old) out.old at scratch.new out.new result }
{
    if source.len() <= SHORT_SOURCE {
        return put_source::<SHORT_TABLE>(source, label, scratch, out, at);
    }
    put_source::<TABLE_ROOM>(source, label, scratch, out, at)
}

// A line: too long, without a tab, or a source and a label.
fn put_reply(line: &[u8], scratch: &mut [u8], out: &mut [u8], at: usize) -> usize
    requires { at + reply_room ≤ length out.old }
    ensures { Replied reply_room (reply line.now scratch.old) out.old at scratch.new out.new result }
{
    if LINE_LIMIT < line.len() {
        return put(out, at, &[b'L']);
    }
    let Some(tab) = tab_at(line) else {
        return put(out, at, &[b'T']);
    };
    put_cut(&line[..tab], &line[tab + 1..], scratch, out, at)
}

// The reply and its newline.
pub fn answer_line(line: &[u8], scratch: &mut [u8], out: &mut [u8], at: usize) -> usize
    requires { at + reply_room + 1 ≤ length out.old }
    ensures { Replied (reply_room + 1) (answer_to line.now scratch.old) out.old at scratch.new out.new result }
{
    let end = put_reply(line, scratch, out, at);
    put(out, end, &[NEWLINE])
}

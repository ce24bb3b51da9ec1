// What the line tool does between reads and writes, as values: the program reads and writes what it is told here, and
// hands on how that went. Four buffers and no struct of them: tried, a part of one isn't proved to be lent beside another.
ghost use Rattle.std.specs.Prelude.{◌≡◌, ◌≤◌, ltb, length};
ghost use Rattle.replies.specs.Sizes.{out_room};
ghost use Rattle.lines.specs.Chunk.{lend, Lent};
ghost use Rattle.lines.specs.Session.{reading_of, state_of, StartPost, halted, Continues, AfterRead, RestIn, PendingIn, GoesOn, AfterWrite};
ghost use Rattle.pattern.specs.Bytes.{Bytes};

use crate::chunk::{Pending, Rest, answer_chunk, answer_last};

// The line that the output begins with.
const FIRST_LINE: [u8; 6] = *b"MPT 2\n";

// What a read gave, one of three: nothing, since it failed; the end of the input; or the first bytes of the buffer.
#[derive(Clone, Copy)]
pub enum Input {
    Failed,
    Ended,
    Chunk(usize),
}

// What the program is to do: write; read, with so many bytes of a line held; or stop. Values and no closures: `state_of` speaks of them.
#[derive(Clone, Copy)]
pub enum Next {
    Write(Pending),
    Read(usize),
    Stop,
}

// What a read's answer means, for a buffer of room bytes: how many bytes it read, none if it failed.
#[tactic(auto, unfolding(crate::specs::Session::reading_of))]
pub fn reading(got: Option<usize>, room: usize) -> Input
    ensures { result ≡ reading_of got room }
{
    match got {
        None => Input::Failed,
        Some(0) => Input::Ended,
        Some(n) => Input::Chunk(n.min(room)),
    }
}

// At first: the line that the output begins with is to be written.
pub fn start(out: &mut [u8]) -> Next
    requires { out_room ≤ length out.old }
    ensures { StartPost out.old out.new result }
{
    let line = FIRST_LINE;
    let end = line.len();
    out[..end].copy_from_slice(&line);
    let rest = Rest {
        from: 0,
        to: 0,
        held: 0,
    };
    Next::Write(Pending {
        end,
        rest: Some(rest),
    })
}

// It ends, and every byte is zeroed.
fn halt(buf: &mut [u8], line: &mut [u8], scratch: &mut [u8], out: &mut [u8]) -> Next
    ensures { state_of result buf.new line.new scratch.new out.new ≡ halted buf.old (lend line.old scratch.old out.old) }
{
    buf.fill(0);
    line.fill(0);
    scratch.fill(0);
    out.fill(0);
    Next::Stop
}

// A chunk is answered from a place on; the replies are to be written, and then the rest is answered.
fn answer(
    chunk: &[u8],
    from: usize,
    line: &mut [u8],
    held: usize,
    scratch: &mut [u8],
    out: &mut [u8],
) -> Next
    requires from { from ≤ length chunk.now }
    requires lent { Lent held (lend line.old scratch.old out.old) }
    ensures { (input : Bytes) → Continues chunk.now from held input (lend line.old scratch.old out.old) (state_of result input line.new scratch.new out.new) }
{
    let (end, rest) = answer_chunk(chunk, from, line, held, scratch, out);
    Next::Write(Pending {
        end,
        rest: Some(rest),
    })
}

// After a read: a failed one ends it, and what is held of a line is dropped, since it may be cut; at the input's end it is
// the last line; else the chunk is answered.
pub fn after_read(
    held: usize,
    got: Option<usize>,
    buf: &mut [u8],
    line: &mut [u8],
    scratch: &mut [u8],
    out: &mut [u8],
) -> Next
    requires { Lent held (lend line.old scratch.old out.old) }
    ensures { AfterRead (reading_of got (length buf.old)) held buf.old (lend line.old scratch.old out.old) (state_of result buf.new line.new scratch.new out.new) }
{
    match reading(got, buf.len()) {
        Input::Failed => halt(buf, line, scratch, out),
        Input::Ended => {
            let end = answer_last(&line[..held], scratch, out);
            line[..held].fill(0);
            Next::Write(Pending { end, rest: None })
        }
        Input::Chunk(n) => answer(&buf[..n], 0, line, held, scratch, out),
    }
}

// The bytes written are zeroed, and the rest of the chunk is answered; or, if there is none, the chunk is zeroed and more is read.
fn go_on(
    end: usize,
    rest: Rest,
    buf: &mut [u8],
    line: &mut [u8],
    scratch: &mut [u8],
    out: &mut [u8],
) -> Next
    requires end { end ≤ length out.old }
    requires rest { RestIn rest buf.old (lend line.old scratch.old out.old) }
    ensures { GoesOn (ltb rest.from rest.to) end rest buf.old (lend line.old scratch.old out.old) (state_of result buf.new line.new scratch.new out.new) }
{
    let Rest { from, to, held } = rest;
    out[..end].fill(0);
    if from < to {
        return answer(&buf[..to], from, line, held, scratch, out);
    }
    buf[..to].fill(0);
    Next::Read(held)
}

// After a write: it goes on if the write succeeded and wasn't the last, else it ends.
pub fn after_write(
    p: Pending,
    wrote: bool,
    buf: &mut [u8],
    line: &mut [u8],
    scratch: &mut [u8],
    out: &mut [u8],
) -> Next
    requires { PendingIn p buf.old (lend line.old scratch.old out.old) }
    ensures { AfterWrite wrote p buf.old (lend line.old scratch.old out.old) (state_of result buf.new line.new scratch.new out.new) }
{
    match p.rest {
        Some(rest) if wrote => go_on(p.end, rest, buf, line, scratch, out),
        _ => halt(buf, line, scratch, out),
    }
}

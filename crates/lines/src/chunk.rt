// The replies to the lines of an input, chunk by chunk.
ghost use Rattle.std.specs.Prelude.{◌≤◌, length};
ghost use Rattle.replies.specs.Sizes.{out_room};
ghost use Rattle.replies.specs.Stores.{Replied};
ghost use Rattle.lines.specs.Output.{answers, last_line};
ghost use Rattle.lines.specs.Chunk.{lend, Lent, AnswerChunkPost};

use crate::line::take_line;
use replies::reply::answer_line;
use replies::sizes::OUT_ROOM;

// The bytes from..to of the input are still to be answered, with held bytes of a line before them, in buffers of a fixed size.
#[derive(Clone, Copy)]
pub struct Rest {
    pub from: usize,
    pub to: usize,
    pub held: usize,
}

// The first end bytes of the output are to be written. Then the rest is to be answered; or, if it was the last output, nothing.
#[derive(Clone, Copy)]
pub struct Pending {
    pub end: usize,
    pub rest: Option<Rest>,
}

// Answers lines until the chunk ends or there may be no room for a reply; the bytes of a line that was answered are zeroed.
// It answers where the replies end in the output, and what is left. A `while`: a turn takes a line, however long.
// Not inlined: lines without a tab want registers of their own.
#[inline(never)]
pub fn answer_chunk(
    chunk: &[u8],
    from: usize,
    line: &mut [u8],
    held: usize,
    scratch: &mut [u8],
    out: &mut [u8],
) -> (usize, Rest)
    requires from { from ≤ length chunk.now }
    requires lent { Lent held (lend line.old scratch.old out.old) }
    ensures { AnswerChunkPost chunk.now from held (lend line.old scratch.old out.old) (lend line.new scratch.new out.new) result.0 result.1 }
{
    let to = chunk.len();
    let mut next = from;
    let mut n = held;
    let mut end = 0;
    while next < to && OUT_ROOM <= out.len() - end {
        let t = take_line(chunk, next, line, n);
        next = t.next;
        n = t.held;
        if t.ended {
            end = answer_line(&line[..n], scratch, out, end);
            line[..n].fill(0);
            n = 0;
        }
    }
    let rest = Rest {
        from: next,
        to,
        held: n,
    };
    (end, rest)
}

// Answers a last line without a newline, if it has bytes.
pub fn answer_last(line: &[u8], scratch: &mut [u8], out: &mut [u8]) -> usize
    requires { out_room ≤ length out.old }
    ensures { Replied (length out.old) (answers (last_line line.now) scratch.old) out.old 0 scratch.new out.new result }
{
    if line.is_empty() {
        return 0;
    }
    answer_line(line, scratch, out, 0)
}

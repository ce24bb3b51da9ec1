// The line tool: reads lines of a source, a tab and a label, and writes an answer for each. What it does with what it
// reads, and what it writes when, is told by lines::session, which also says why the four buffers stand apart.
#![tactic(auto)]

ghost use Rattle.std.specs.Prelude.{◌≤◌, length, take};
ghost use Rattle.std.specs.Io.KnownBytes.{Appends};
ghost use Rattle.lines.specs.Chunk.{lend};
ghost use Rattle.lines.specs.Session.{state_of, started};
ghost use Rattle.lines.specs.Invariant.{Sound};
ghost use Rattle.mptline.specs.Run.{WriteStep, ReadStep, RunPost};
ghost use Rattle.lines.specs.declared.session.Next.TheVariants.{Write, Read, Stop};

use lines::chunk::Pending;
use lines::session;
use lines::session::Next;
use replies::sizes;
use std::io::{ErrorKind, Read, Write};

// Bytes of input and of output that are taken at a time.
const BUFFER_SIZE: usize = 65536;

// Writes bytes until all are written or a write fails, other than by an interrupt, and returns how many were. By `write`,
// since `write_all` doesn't say what it wrote where it fails.
fn write_bytes<W: Write>(output: &mut W, bytes: &[u8]) -> usize
    ensures within { result ≤ length bytes.now }
    ensures gave { Appends (W.contents output.old) (W.contents output.new) (take result bytes.now) }
{
    let mut written = 0;
    'writes: for _ in 0..u64::MAX {
        if written == bytes.len() {
            return written;
        }
        match output.write(&bytes[written..]) {
            Ok(0) => return written,
            Ok(n) => written += n,
            Err(e) if e.kind() == ErrorKind::Interrupted => {}
            Err(_) => return written,
        }
    }
    written
}

// Writes what is to be written.
#[tactic(auto, unfolding(lines::specs::Invariant::NextIn))]
fn write<W: Write>(
    output: &mut W,
    p: Pending,
    buf: &mut [u8],
    line: &mut [u8],
    scratch: &mut [u8],
    out: &mut [u8],
) -> Next
    requires { Sound (state_of (Write p) buf.old line.old scratch.old out.old) }
    ensures { WriteStep (state_of (Write p) buf.old line.old scratch.old out.old) (state_of result buf.new line.new scratch.new out.new) (W.contents output.old) (W.contents output.new) }
{
    let wrote = write_bytes(output, &out[..p.end]) == p.end;
    session::after_write(p, wrote, buf, line, scratch, out)
}

// Reads once.
#[tactic(auto, unfolding(lines::specs::Invariant::NextIn))]
fn read<R: Read>(
    input: &mut R,
    held: usize,
    buf: &mut [u8],
    line: &mut [u8],
    scratch: &mut [u8],
    out: &mut [u8],
) -> Next
    requires { Sound (state_of (Read held) buf.old line.old scratch.old out.old) }
    ensures { ReadStep (state_of (Read held) buf.old line.old scratch.old out.old) (state_of result buf.new line.new scratch.new out.new) (R.remaining input.old) (R.remaining input.new) }
{
    let got = input.read(buf).ok();
    session::after_read(held, got, buf, line, scratch, out)
}

// Reads and writes until it is told to stop. A proved loop has to end, so its turns are counted up to a number that no
// run reaches in practice; what is answered says which it was.
fn run<R: Read, W: Write>(
    input: &mut R,
    output: &mut W,
    first: Next,
    buf: &mut [u8],
    line: &mut [u8],
    scratch: &mut [u8],
    out: &mut [u8],
) -> Next
    requires { Sound (state_of first buf.old line.old scratch.old out.old) }
    ensures { RunPost (state_of first buf.old line.old scratch.old out.old) (state_of result buf.new line.new scratch.new out.new) (R.remaining input.old) (R.remaining input.new) (W.contents output.old) (W.contents output.new) }
{
    let mut next = first;
    for _ in 0..u64::MAX {
        next = match next {
            Next::Write(p) => write(output, p, buf, line, scratch, out),
            Next::Read(held) => read(input, held, buf, line, scratch, out),
            Next::Stop => return next,
        };
    }
    next
}

// All of it, from buffers of zeros.
fn answer_input<R: Read, W: Write>(
    input: &mut R,
    output: &mut W,
    buf: &mut [u8],
    line: &mut [u8],
    scratch: &mut [u8],
    out: &mut [u8],
) -> Next
    requires { Sound (state_of Stop buf.old line.old scratch.old out.old) }
    ensures { RunPost (started buf.old (lend line.old scratch.old out.old)) (state_of result buf.new line.new scratch.new out.new) (R.remaining input.old) (R.remaining input.new) (W.contents output.old) (W.contents output.new) }
{
    let first = session::start(out);
    run(input, output, first, buf, line, scratch, out)
}

fn main(rt: HostRuntime) {
    let mut input = rt.stdin();
    let mut output = rt.stdout();
    let mut buf = [0u8; BUFFER_SIZE];
    let mut line = [0u8; sizes::HELD_LIMIT];
    let mut scratch = [0u8; sizes::SCRATCH_SIZE];
    let mut out = [0u8; BUFFER_SIZE];
    answer_input(
        &mut input,
        &mut output,
        &mut buf,
        &mut line,
        &mut scratch,
        &mut out,
    );
}

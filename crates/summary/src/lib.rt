// The summary of a good table, worked out in one backward pass over its records, and what a summary rules out.
#![tactic(auto)]

ghost use Rattle.std.specs.Prelude.{◌≡◌};
ghost use Rattle.pattern.specs.Bytes.{overwrite};
ghost use Rattle.pattern.specs.Decode.{tree_of};
ghost use Rattle.summary.specs.Summary.{summary_of, summary_bytes};
ghost use Rattle.summary.specs.Rows.{SummaryPre};

use packed::Packed;
use settle::Records;

mod leaf;
mod ops;
pub mod packed;
pub mod rules;
mod settle;
mod write;

pub const SUMMARY_SIZE: usize = 36;

// The summary of a good table of this many atoms, at the start of what is lent; the bytes after it stay. There is a row for each atom, and
// the rows hold anything.
pub fn write_summary(table: &[u8], atoms: usize, rows: &mut [Packed], out: &mut [u8])
    requires { SummaryPre table.now atoms rows.old out.old }
    ensures { out.new ≡ overwrite (summary_bytes (summary_of (tree_of table.now))) out.old }
{
    let m = Records::of(table).settle_all(rows, atoms);
    write::write(m, out);
}

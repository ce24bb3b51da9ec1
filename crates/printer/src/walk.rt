// The walk that writes: a cycle of three functions for patterns, atoms and groups.
ghost use Rattle.std.specs.Prelude.{◌+◌, ◌-◌};
ghost use Rattle.pattern.specs.Syntax.{size};
ghost use Rattle.pattern.specs.Print.{print};
ghost use Rattle.atoms.specs.Atoms.{node, branches_from, head};
ghost use Rattle.printer.specs.Walk.{WritePatternPre, WriteAtomPre, WriteGroupPre, WritePost};

use super::tokens;
use atoms::{literal_at, record_at};
use pattern::kind::Kind;
use stores::put;
use table::record::Record;

// An atom, and the place from which it is written.
#[derive(Clone, Copy)]
pub struct Progress {
    pub atom: usize,
    pub at: usize,
}

// The pattern that begins at an atom; the answer is the atom after it, and the place after what is written.
#[cycle(write_atom_write_group_write_pattern)]
pub fn write_pattern(table: &[u8], out: &mut [u8], from: Progress) -> Progress
    requires { WritePatternPre table.now out.old from }
    ensures { WritePost (print (node table.now from.atom)) (from.atom + size (node table.now from.atom)) out.old from.at result out.new }
{
    let mut next = from; // how many atoms there are to write stands in their records alone
    loop {
        let r = record_at(table, next.atom);
        next = write_atom(table, out, r, next);
        if r.ends == 1 {
            return next;
        }
    }
}

// An atom, by its record.
#[cycle(write_atom_write_group_write_pattern)]
fn write_atom(table: &[u8], out: &mut [u8], r: Record, from: Progress) -> Progress
    requires { WriteAtomPre table.now out.old r from }
    ensures { WritePost (print (head (node table.now from.atom))) (from.atom + size (head (node table.now from.atom))) out.old from.at result out.new }
{
    let at = tokens::count(out, from.at, r.low, r.high);
    let atom = from.atom + 1;
    match r.kind() {
        Some(Kind::Codes) => Progress {
            atom,
            at: tokens::letters(out, at, r.a),
        },
        Some(Kind::Literal) => {
            let v = literal_at(table, from.atom);
            Progress {
                atom,
                at: tokens::literal(out, at, &table[v.from..v.from + v.len]),
            }
        }
        Some(Kind::Group) => {
            let at = put(out, at, &[b'(']);
            let next = write_group(table, out, Progress { atom, at }, r.a);
            let at = put(out, next.at, &[b')']);
            Progress { at, ..next }
        }
        None => unreachable!(),
    }
}

// Some branches, the first of which begins at an atom.
#[cycle(write_atom_write_group_write_pattern)]
fn write_group(table: &[u8], out: &mut [u8], from: Progress, branches: u16) -> Progress
    requires { WriteGroupPre table.now out.old from branches }
    ensures { WritePost (print (branches_from table.now (branches - 1) from.atom)) (from.atom + size (branches_from table.now (branches - 1) from.atom)) out.old from.at result out.new }
{
    let mut next = from;
    for _ in 1..branches {
        next = write_pattern(table, out, next);
        next.at = put(out, next.at, &[b',']);
    }
    write_pattern(table, out, next)
}

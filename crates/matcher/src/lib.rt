// Matching a label against a table, each trial counted against a budget.
#![tactic(auto)]

ghost use Rattle.std.specs.Prelude.{◌≡◌};
ghost use Rattle.pattern.specs.Answers.{ended};
ghost use Rattle.matcher.specs.Answered.{match_output, MatchPost};
ghost use Rattle.matcher.specs.Run.{RunPre, unrefused};

mod atom;
mod body;
mod parts;
mod task;

use pattern::limits::LABEL_LIMIT;
use pattern::refusal::Refusal;
use planes::budget::Budget;
use planes::cells::holds;
use stores::clear;
use table::TestedTable;
use task::Task;

// The verdict of a match, and the trials made, which stand either way.
#[derive(Clone, Copy)]
pub struct Verdict {
    pub matches: bool,
    pub trials: u64,
}

// A match where no refusal but Budget can come. Not inlined: a label that is refused before takes no stack for it.
#[inline(never)]
fn run(
    table: &[u8],
    label: &[u8],
    scratch: &mut [u8],
    parts: &mut [u8],
    atoms: usize,
    budget: u64,
) -> Result<Verdict, Refusal>
    requires { RunPre table.now label.now scratch.old parts.old atoms }
    ensures { match_output budget result scratch.new parts.new ≡ ended (unrefused table.now label.now budget) scratch.old parts.old }
{
    let n = label.len();
    let w = n + 1;
    let temp = 2 * atoms;
    let len = (temp + 4) * w * w;
    let task = Task {
        table,
        label,
        w,
        temp,
    };
    let begun = Budget {
        limit: budget,
        spent: 0,
    };
    let Some(counted) = task.settle_all(scratch, begun) else {
        clear(scratch, len); // on Budget too
        return Err(Refusal::Budget);
    };
    let matches = holds(scratch, w, 1, 0, n);
    if matches {
        task.write_parts(scratch, parts);
    }
    clear(scratch, len);
    let trials = counted.spent;
    Ok(Verdict { matches, trials })
}

// Whether the label satisfies the pattern of a table that was tested, and if so where its parts end: Label, Work and Parts are looked at
// first. Label, scratch and parts are arguments, as the calls from C lend them.
pub fn match_good(
    table: TestedTable<'_>,
    label: &[u8],
    scratch: &mut [u8],
    parts: &mut [u8],
    budget: u64,
) -> Result<Verdict, Refusal>
    ensures { MatchPost table.entry.bytes.now label.now scratch.old parts.old budget result scratch.new parts.new }
{
    let atoms = table.sizes.atoms;
    let n = label.len();
    if LABEL_LIMIT < n {
        return Err(Refusal::Label);
    }
    if scratch.len() < (2 * atoms + 4) * (n + 1) * (n + 1) {
        return Err(Refusal::Work);
    }
    if parts.len() < 2 * table.sizes.top {
        return Err(Refusal::Parts);
    }
    run(table.bytes, label, scratch, parts, atoms, budget)
}

// The same of any bytes: Table before all.
pub fn match_label(
    table: &[u8],
    label: &[u8],
    scratch: &mut [u8],
    parts: &mut [u8],
    budget: u64,
) -> Result<Verdict, Refusal>
    ensures { MatchPost table.now label.now scratch.old parts.old budget result scratch.new parts.new }
{
    let Some(good) = table::test(table) else {
        return Err(Refusal::Table);
    };
    match_good(good, label, scratch, parts, budget)
}

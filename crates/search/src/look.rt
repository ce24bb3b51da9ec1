// One number of a search: 13 and 14, whether its summary rules the label out, and the match.
ghost use Rattle.search.specs.Looking.{MatchPre, IsMatchPost, LookAtPre, LookAtPost};

use matcher::match_label;
use pattern::refusal::Refusal;
use register::slot::Kept;
use summary::rules::rules_out;

// The largest budget: no match exceeds it.
const UNLIMITED: u64 = u64::MAX;

// What came of a number that is kept; after no match how far scratch is zero. Three cases, since only what is ruled out is counted.
#[derive(Clone, Copy)]
pub enum Look {
    Match,
    NoMatch(usize),
    RuledOut(usize),
}

// Whether a label satisfies the pattern of a good table, where no refusal can come.
fn is_match(table: &[u8], label: &[u8], scratch: &mut [u8], parts: &mut [u8]) -> bool
    requires { MatchPre table.now label.now scratch.old parts.old }
    ensures { IsMatchPost table.now label.now scratch.old parts.old result scratch.new parts.new }
{
    match_label(table, label, scratch, parts, UNLIMITED).is_ok_and(|verdict| verdict.matches)
}

// The table of a number with its summary and sizes; the first bytes of scratch are zero as far as it was cleared.
pub fn look_at(
    summary: &[u8],
    table: &[u8],
    kept: Kept,
    label: &[u8],
    scratch: &mut [u8],
    parts: &mut [u8],
    cleared: usize,
) -> Result<Look, Refusal>
    requires { LookAtPre summary.now table.now kept label.now scratch.old cleared }
    ensures { LookAtPost table.now label.now scratch.old parts.old result scratch.new parts.new }
{
    let w = label.len() + 1;
    let needed = (2 * kept.atoms + 4) * w * w;
    if scratch.len() < needed {
        return Err(Refusal::Work);
    }
    if parts.len() < 2 * kept.top {
        return Err(Refusal::Parts);
    }
    let reach = cleared.max(needed);
    if rules_out(summary, label) {
        scratch[cleared..reach].fill(0);
        return Ok(Look::RuledOut(reach));
    }
    if is_match(table, label, scratch, parts) {
        return Ok(Look::Match);
    }
    Ok(Look::NoMatch(reach))
}

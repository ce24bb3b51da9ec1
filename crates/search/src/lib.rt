// The search of a register: the lowest number whose pattern a label satisfies, without a match where a summary rules the label out.
#![tactic(auto)]

ghost use Rattle.std.specs.Prelude.{◌≡◌};
ghost use Rattle.search.specs.Search.{search_of};
ghost use Rattle.search.specs.Looking.{search_output, LookPre};

mod look;

use look::{Look, look_at};
use pattern::limits::LABEL_LIMIT;
use pattern::refusal::{Fault, Refusal};
use register::slot::{SLOT_SIZE, kept_at, summary_at};
use register::{NUMBERS, OVERHEAD, PREAMBLE_SIZE, is_register};

// The number whose pattern matches, and how many were skipped.
#[derive(Clone, Copy)]
pub struct Searched {
    pub found: Option<usize>,
    pub skipped: u64,
}

// The numbers upwards, by number since slots and tables lie apart, none after the first that matches; the first bytes of scratch are zero as far as it was cleared.
// Label, scratch and parts are arguments, as `match_label` and the calls from C take them: a struct would only be taken apart again.
fn search_numbers(
    lent: &[u8],
    label: &[u8],
    scratch: &mut [u8],
    parts: &mut [u8],
) -> Result<Searched, Fault>
    requires { LookPre lent.now label.now }
    ensures { search_output result scratch.new parts.new ≡ search_of lent.now label.now scratch.old parts.old }
{
    let mut at = OVERHEAD;
    let mut skipped = 0;
    let mut cleared = 0;
    for k in 0..NUMBERS {
        let slot = PREAMBLE_SIZE + SLOT_SIZE * k;
        let kept = kept_at(lent, slot);
        if kept.length == 0 {
            continue;
        }
        let summary = summary_at(lent, slot);
        let end = at + kept.length;
        let table = &lent[at..end];
        at = end;
        let look = look_at(summary, table, kept, label, scratch, parts, cleared).map_err(
            move |refusal| refusal.at(k),
        )?;
        match look {
            Look::Match => {
                return Ok(Searched {
                    found: Some(k),
                    skipped,
                });
            }
            Look::NoMatch(reach) => cleared = reach,
            Look::RuledOut(reach) => {
                skipped += 1;
                cleared = reach;
            }
        }
    }
    Ok(Searched {
        found: None,
        skipped,
    })
}

// The lowest number whose pattern the label satisfies, with its parts; 18, 12, then the numbers upwards, with the number at which it was refused.
pub fn search(
    lent: &[u8],
    label: &[u8],
    scratch: &mut [u8],
    parts: &mut [u8],
) -> Result<Searched, Fault>
    ensures { search_output result scratch.new parts.new ≡ search_of lent.now label.now scratch.old parts.old }
{
    if !is_register(lent) {
        return Err(Refusal::Register.at(0));
    }
    if LABEL_LIMIT < label.len() {
        return Err(Refusal::Label.at(0));
    }
    search_numbers(lent, label, scratch, parts)
}

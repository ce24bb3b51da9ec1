// One pattern and a batch of labels in one call, which answers as single calls in turn.
#![tactic(auto)]

ghost use Rattle.std.specs.Prelude.{◌≡◌, false, ◌*◌};
ghost use Rattle.pattern.specs.Bytes.{numbers_in};
ghost use Rattle.pattern.specs.Refusals.{number_of_result};
ghost use Rattle.batch.specs.Batch.{batch_output, labels_from, in_turn, batch_of, unfit};
ghost use Rattle.batch.specs.Each.{ByteOfPost};

mod fit;

use fit::is_unfit;
use matcher::{Verdict, match_good};
use pattern::refusal::Refusal;
use stores::read16;
use table::TestedTable;

// The byte of a label's answer, as C reads it: 0 for no, 1 for yes, else the refusal number.
#[tactic(auto, unfolding(crate::specs::Batch::answer_byte))]
fn byte_of(answer: Result<Verdict, Refusal>) -> u8
    ensures { ByteOfPost answer result }
{
    match answer {
        Ok(verdict) => u8::from(verdict.matches),
        Err(refusal) => refusal as u8,
    }
}

// Each label in turn, with the scratch that the one before it left. By number: its end, its byte and its parts lie apart.
fn match_each(
    table: TestedTable<'_>,
    labels: &[u8],
    ends: &[u8],
    scratch: &mut [u8],
    verdicts: &mut [u8],
    parts: &mut [u8],
    budget: u64,
)
    requires { unfit (2 * table.sizes.top) labels.now ends.now verdicts.old parts.old ≡ false }
    ensures { batch_output 0 scratch.new verdicts.new parts.new ≡ in_turn table.entry.bytes.now (2 * table.entry.sizes.top) budget (labels_from 0 (numbers_in ends.now) labels.now) scratch.old verdicts.old parts.old }
{
    let width = 2 * table.sizes.top;
    let mut from = 0;
    for k in 0..ends.len() / 2 {
        let to = usize::from(read16(ends, 2 * k));
        let at = k * width;
        verdicts[k] = byte_of(match_good(
            table,
            &labels[from..to],
            scratch,
            &mut parts[at..at + width],
            budget,
        ));
        from = to;
    }
}

// Refuses a batch as a whole, or matches each label. Plain slices, as the call from C lends them.
pub fn match_batch(
    table: &[u8],
    labels: &[u8],
    ends: &[u8],
    scratch: &mut [u8],
    verdicts: &mut [u8],
    parts: &mut [u8],
    budget: u64,
) -> Result<(), Refusal>
    ensures { batch_output (number_of_result result) scratch.new verdicts.new parts.new ≡ batch_of table.now labels.now ends.now scratch.old verdicts.old parts.old budget }
{
    let Some(good) = table::test(table) else {
        return Err(Refusal::Table);
    };
    if is_unfit(labels, ends, verdicts, parts, 2 * good.sizes.top) {
        return Err(Refusal::Batch);
    }
    match_each(good, labels, ends, scratch, verdicts, parts, budget);
    Ok(())
}

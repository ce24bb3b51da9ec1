// Whether what is lent fits a batch.
ghost use Rattle.std.specs.Prelude.{◌≡◌, ◌≤◌};
ghost use Rattle.pattern.specs.Numbers.{parts_room};
ghost use Rattle.pattern.specs.Bytes.{numbers_in};
ghost use Rattle.batch.specs.Batch.{misplaced, unfit};

use stores::read16;

const BATCH_LIMIT: usize = 96;

// Some end is before the one before it, or past the buffer. C lends the ends as bytes.
#[tactic(auto, using(crate::proofs::Placing::misplaced_here, crate::proofs::Placing::placed_next, crate::proofs::Placing::all_placed))]
fn is_misplaced(ends: &[u8], size: usize) -> bool
    ensures { result ≡ misplaced 0 (numbers_in ends.now) size }
{
    let mut from = 0;
    for pair in ends.chunks_exact(2) {
        let end = usize::from(read16(pair, 0));
        if end < from || size < end {
            return true;
        }
        from = end;
    }
    false
}

// The labels, their ends or the outputs are refused as a whole; width is the part bytes of each label.
#[tactic(auto, using(crate::proofs::Fitting::half_end, crate::proofs::Fitting::many_labels, crate::proofs::Fitting::verdicts_short, crate::proofs::Fitting::parts_short, crate::proofs::Fitting::by_places))]
pub fn is_unfit(labels: &[u8], ends: &[u8], verdicts: &[u8], parts: &[u8], width: usize) -> bool
    requires { width ≤ parts_room }
    ensures { result ≡ unfit width labels.now ends.now verdicts.now parts.now }
{
    let count = ends.len() / 2;
    if ends.len() % 2 == 1
        || BATCH_LIMIT < count
        || verdicts.len() < count
        || parts.len() < count * width
    {
        return true;
    }
    is_misplaced(ends, labels.len())
}

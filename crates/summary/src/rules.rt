// What a summary rules out, by its bytes.
ghost use Rattle.std.specs.Prelude.{◌≤◌, length};
ghost use Rattle.summary.specs.Summary.{summary_size};
ghost use Rattle.summary.specs.Ruling.{RulesOut};

use stores::read16;

// Whether the summary with these bytes rules out the label: by its length, or by its first byte if it has one.
pub fn rules_out(summary: &[u8], label: &[u8]) -> bool
    requires { summary_size ≤ length summary.now }
    ensures { RulesOut summary.now label.now result }
{
    let n = label.len();
    if n < usize::from(read16(summary, 0)) {
        return true;
    }
    if usize::from(read16(summary, 2)) < n {
        return true;
    }
    if n == 0 {
        return false;
    }
    let b = label[0];
    (summary[4 + usize::from(b / 8)] >> (b % 8)) % 2 == 0
}

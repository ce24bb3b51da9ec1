// Writing a table back as its shortest source.
#![tactic(auto)]

mod tokens;
mod walk;

ghost use Rattle.std.specs.Prelude.{◌≡◌};
ghost use Rattle.pattern.specs.Answers.{write_of};
ghost use Rattle.printer.specs.Outputs.{output_of};

use pattern::refusal::Refusal;
use walk::Progress;

// Writes the shortest source of a good table to the start of source, and answers its length; a refusal writes nothing.
pub fn write_back(table: &[u8], source: &mut [u8]) -> Result<usize, Refusal>
    ensures { output_of result source.new ≡ write_of table.now source.old }
{
    let Some(good) = table::test(table) else {
        return Err(Refusal::Table);
    };
    if source.len() < good.sizes.source {
        return Err(Refusal::Room);
    }
    walk::write_pattern(table, source, Progress { atom: 0, at: 0 });
    Ok(good.sizes.source)
}

// The answer area: four numbers of 64 bits, the lowest byte first. It is C's own slice, whose length each call looks at first.
ghost use Rattle.std.specs.Prelude.{◌≡◌, ◌≤◌, length};
ghost use Rattle.pattern.specs.Bytes.{overwrite};
ghost use Rattle.matcher.specs.Answered.{answer_of, trials_of};
ghost use Rattle.mpt.specs.Area.{area_size, four_numbers, area};

use matcher::Verdict;
use pattern::refusal::Refusal;
use stores::put;

pub const AREA_SIZE: usize = 32;

// Four numbers at the start of the area.
pub fn put_numbers(answer: &mut [u8], a: u64, b: u64, c: u64, d: u64)
    requires { area_size ≤ length answer.old }
    ensures { answer.new ≡ overwrite (four_numbers a b c d) answer.old }
{
    let second = put(answer, 0, &a.to_le_bytes());
    let third = put(answer, second, &b.to_le_bytes());
    let fourth = put(answer, third, &c.to_le_bytes());
    put(answer, fourth, &d.to_le_bytes());
}

// The numbers of an answer at the start of the area.
#[tactic(auto, unfolding(crate::specs::Area::area))]
pub fn put_answer(answer: &mut [u8], position: u64, value: u64, trials: u64)
    requires { area_size ≤ length answer.old }
    ensures { answer.new ≡ overwrite (area record { number = 0; position = position; value = value; trials = trials }) answer.old }
{
    put_numbers(answer, position, value, trials, 0);
}

// The trials that a refusal reports.
fn trials(refusal: Refusal, budget: u64) -> u64
    ensures { result ≡ trials_of budget refusal }
{
    match refusal {
        Refusal::Budget => budget,
        _ => 0,
    }
}

// The answer to a match at the start of the area, and its number.
#[tactic(auto, unfolding(crate::specs::Area::area))]
pub fn put_verdict(answer: &mut [u8], matched: Result<Verdict, Refusal>, budget: u64) -> u32
    requires { area_size ≤ length answer.old }
    ensures number { result ≡ (answer_of budget matched).number }
    ensures written { answer.new ≡ overwrite (area (answer_of budget matched)) answer.old }
{
    match matched {
        Ok(verdict) => {
            put_answer(answer, 0, u64::from(verdict.matches), verdict.trials);
            0
        }
        Err(refusal) => {
            put_answer(answer, 0, 0, trials(refusal, budget));
            u32::from(refusal)
        }
    }
}

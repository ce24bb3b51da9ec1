// The calls from C. Each returns the refusal number, 0 for none; the numbers of its answer go to the answer area.
// Each stands whole, its test of the area first, since C calls it by itself.
#![tactic(auto)]

mod area;

ghost use Rattle.std.specs.Prelude.{◌≡◌};
ghost use Rattle.pattern.specs.Refusals.{number_of_result};
ghost use Rattle.mpt.specs.Calls.{compile_call, write_call, match_call, batch_call, init_call, store_call, remove_call, match_number_call, search_call};

use crate::area::{AREA_SIZE, put_answer, put_numbers, put_verdict};
use batch::match_batch;
use compiler::compile;
use matcher::match_label;
use pattern::refusal::Refusal;
use printer::write_back;
use register::{init, match_number, remove, store};
use search::search;

// The number that a call returns which answers no more than whether it was refused.
fn number(called: Result<(), Refusal>) -> u32
    ensures { result ≡ number_of_result called }
{
    match called {
        Ok(()) => 0,
        Err(refusal) => u32::from(refusal),
    }
}

#[unsafe(no_mangle)]
pub extern "C" fn mpt_compile(source: &[u8], table: &mut [u8], answer: &mut [u8]) -> u32
    ensures { record { number = result; lent = table.new; answer = answer.new } ≡ compile_call source.now table.old answer.old }
{
    if answer.len() < AREA_SIZE {
        return u32::from(Refusal::Answer);
    }
    match compile(source, table) {
        Ok(length) => {
            put_answer(answer, 0, length as u64, 0);
            0
        }
        Err(fault) => {
            put_answer(answer, fault.position as u64, 0, 0);
            u32::from(fault.refusal)
        }
    }
}

#[unsafe(no_mangle)]
pub extern "C" fn mpt_write_back(table: &[u8], source: &mut [u8], answer: &mut [u8]) -> u32
    ensures { record { number = result; lent = source.new; answer = answer.new } ≡ write_call table.now source.old answer.old }
{
    if answer.len() < AREA_SIZE {
        return u32::from(Refusal::Answer);
    }
    match write_back(table, source) {
        Ok(length) => {
            put_answer(answer, 0, length as u64, 0);
            0
        }
        Err(refused) => {
            put_answer(answer, 0, 0, 0);
            u32::from(refused)
        }
    }
}

#[unsafe(no_mangle)]
pub extern "C" fn mpt_match(
    table: &[u8],
    label: &[u8],
    scratch: &mut [u8],
    parts: &mut [u8],
    budget: u64,
    answer: &mut [u8],
) -> u32
    ensures { record { number = result; lent = record { scratch = scratch.new; parts = parts.new }; answer = answer.new } ≡ match_call table.now label.now scratch.old parts.old budget answer.old }
{
    if answer.len() < AREA_SIZE {
        return u32::from(Refusal::Answer);
    }
    let matched = match_label(table, label, scratch, parts, budget);
    put_verdict(answer, matched, budget)
}

#[unsafe(no_mangle)]
pub extern "C" fn mpt_match_batch(
    table: &[u8],
    labels: &[u8],
    ends: &[u8],
    scratch: &mut [u8],
    verdicts: &mut [u8],
    parts: &mut [u8],
    budget: u64,
    answer: &mut [u8],
) -> u32
    ensures { record { number = result; lent = record { scratch = scratch.new; verdicts = verdicts.new; parts = parts.new }; answer = answer.new } ≡ batch_call table.now labels.now ends.now scratch.old verdicts.old parts.old budget answer.old }
{
    if answer.len() < AREA_SIZE {
        return u32::from(Refusal::Answer);
    }
    let called = match_batch(table, labels, ends, scratch, verdicts, parts, budget);
    put_answer(answer, 0, 0, 0);
    number(called)
}

#[unsafe(no_mangle)]
pub extern "C" fn mpt_register_init(reg: &mut [u8], answer: &mut [u8]) -> u32
    ensures { record { number = result; lent = reg.new; answer = answer.new } ≡ init_call reg.old answer.old }
{
    if answer.len() < AREA_SIZE {
        return u32::from(Refusal::Answer);
    }
    let called = init(reg);
    put_answer(answer, 0, 0, 0);
    number(called)
}

#[unsafe(no_mangle)]
pub extern "C" fn mpt_register_store(
    reg: &mut [u8],
    number: u8,
    table: &[u8],
    answer: &mut [u8],
) -> u32
    ensures { record { number = result; lent = reg.new; answer = answer.new } ≡ store_call reg.old number table.now answer.old }
{
    if answer.len() < AREA_SIZE {
        return u32::from(Refusal::Answer);
    }
    let called = store(reg, number, table);
    put_answer(answer, 0, 0, 0);
    crate::number(called)
}

#[unsafe(no_mangle)]
pub extern "C" fn mpt_register_remove(reg: &mut [u8], number: u8, answer: &mut [u8]) -> u32
    ensures { record { number = result; lent = reg.new; answer = answer.new } ≡ remove_call reg.old number answer.old }
{
    if answer.len() < AREA_SIZE {
        return u32::from(Refusal::Answer);
    }
    let called = remove(reg, number);
    put_answer(answer, 0, 0, 0);
    crate::number(called)
}

#[unsafe(no_mangle)]
pub extern "C" fn mpt_register_match(
    reg: &[u8],
    number: u8,
    label: &[u8],
    scratch: &mut [u8],
    parts: &mut [u8],
    budget: u64,
    answer: &mut [u8],
) -> u32
    ensures { record { number = result; lent = record { scratch = scratch.new; parts = parts.new }; answer = answer.new } ≡ match_number_call reg.now number label.now scratch.old parts.old budget answer.old }
{
    if answer.len() < AREA_SIZE {
        return u32::from(Refusal::Answer);
    }
    let matched = match_number(reg, number, label, scratch, parts, budget);
    put_verdict(answer, matched, budget)
}

#[unsafe(no_mangle)]
pub extern "C" fn mpt_register_search(
    reg: &[u8],
    label: &[u8],
    scratch: &mut [u8],
    parts: &mut [u8],
    answer: &mut [u8],
) -> u32
    ensures { record { number = result; lent = record { scratch = scratch.new; parts = parts.new }; answer = answer.new } ≡ search_call reg.now label.now scratch.old parts.old answer.old }
{
    if answer.len() < AREA_SIZE {
        return u32::from(Refusal::Answer);
    }
    match search(reg, label, scratch, parts) {
        Ok(searched) => {
            let verdict = u64::from(searched.found.is_some());
            let at = searched.found.unwrap_or(0) as u64;
            put_numbers(answer, 0, verdict, at, searched.skipped);
            0
        }
        Err(fault) => {
            put_numbers(answer, 0, 0, fault.position as u64, 0);
            u32::from(fault.refusal)
        }
    }
}

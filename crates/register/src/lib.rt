// A register of tables by number in one lent buffer, which answers as a plain map does.
#![tactic(auto)]

mod locate;
mod put;
pub mod slot;

ghost use Rattle.std.specs.Prelude.{◌≡◌, take, IfSome};
ghost use Rattle.pattern.specs.Bytes.{equal};
ghost use Rattle.matcher.specs.Answered.{match_output};
ghost use Rattle.pattern.specs.Refusals.{number_of_result};
ghost use Rattle.register.specs.Layout.{preamble, preamble_size, register_of};
ghost use Rattle.register.specs.Register.{init_of, store_of, remove_of, match_number_of};
ghost use Rattle.register.specs.Sections.{is_register, located, section_of, IsWithin};

use locate::{DIRECTORY_SIZE, Location, locate};
use matcher::{Verdict, match_label};
use pattern::limits::ATOM_LIMIT;
use pattern::refusal::Refusal;
use put::put_table;
use slot::{SLOT_SIZE, slot_of};
use stores::clear;
use summary::packed::EMPTY;

pub const NUMBERS: usize = 256;

pub const PREAMBLE_SIZE: usize = 8;

// The mark, the version and zeros.
const PREAMBLE: [u8; PREAMBLE_SIZE] = *b"MPR\x02\x00\x00\x00\x00";

// What the capacity leaves out.
pub const OVERHEAD: usize = PREAMBLE_SIZE + DIRECTORY_SIZE;

// Whether lent bytes begin as a register does.
fn has_preamble(lent: &[u8]) -> bool
    ensures { result ≡ equal (take preamble_size lent.now) preamble }
{
    lent.starts_with(&PREAMBLE)
}

// Where the table of a number lies in a section, by rows of its own. Not inlined: bytes that don't begin as a register take no stack for rows.
#[inline(never)]
fn locate_number(section: &[u8], number: u8) -> Option<Location>
    ensures { result ≡ located number (section_of section.now) }
{
    let mut rows = [EMPTY; ATOM_LIMIT];
    locate(section, usize::from(number), &mut rows)
}

// Where the table of a number lies in the section after the first bytes, if the lent bytes are a register.
fn find(lent: &[u8], number: u8) -> Option<Location>
    ensures place { result ≡ located number (register_of lent.now) }
    ensures within { IfSome result (λ at. IsWithin at lent.now) }
{
    if lent.len() < OVERHEAD || !has_preamble(lent) {
        return None;
    }
    locate_number(&lent[PREAMBLE_SIZE..], number)
}

// Whether lent bytes are a register.
pub fn is_register(lent: &[u8]) -> bool
    ensures { result ≡ is_register (register_of lent.now) }
{
    find(lent, 0).is_some()
}

// An empty register, whatever the lent bytes are.
pub fn init(lent: &mut [u8]) -> Result<(), Refusal>
    ensures { record { number = number_of_result result; after = lent.new } ≡ init_of lent.old }
{
    if lent.len() < OVERHEAD {
        return Err(Refusal::Register);
    }
    clear(lent, OVERHEAD);
    lent[..PREAMBLE_SIZE].copy_from_slice(&PREAMBLE);
    Ok(())
}

// A table under a number, instead of one that is there.
pub fn store(lent: &mut [u8], number: u8, table: &[u8]) -> Result<(), Refusal>
    ensures { record { number = number_of_result result; after = lent.new } ≡ store_of lent.old number table.now }
{
    let Some(at) = find(lent, number) else {
        return Err(Refusal::Register);
    };
    let Some(good) = table::test(table) else {
        return Err(Refusal::Table);
    };
    if lent.len() - PREAMBLE_SIZE - at.used + (at.end - at.start) < table.len() {
        return Err(Refusal::Full);
    }
    let slot = slot_of(good);
    let k = usize::from(number);
    put_table(&mut lent[PREAMBLE_SIZE..], k, at, table, &slot);
    Ok(())
}

// No table under a number any more.
pub fn remove(lent: &mut [u8], number: u8) -> Result<(), Refusal>
    ensures { record { number = number_of_result result; after = lent.new } ≡ remove_of lent.old number }
{
    let Some(at) = find(lent, number) else {
        return Err(Refusal::Register);
    };
    if at.start == at.end {
        return Err(Refusal::Missing);
    }
    let slot = [0u8; SLOT_SIZE];
    let k = usize::from(number);
    put_table(&mut lent[PREAMBLE_SIZE..], k, at, &[], &slot);
    Ok(())
}

// A label matched against the table of a number.
pub fn match_number(
    lent: &[u8],
    number: u8,
    label: &[u8],
    scratch: &mut [u8],
    parts: &mut [u8],
    budget: u64,
) -> Result<Verdict, Refusal>
    ensures { match_output budget result scratch.new parts.new ≡ match_number_of lent.now number label.now scratch.old parts.old budget }
{
    let Some(at) = find(lent, number) else {
        return Err(Refusal::Register);
    };
    if at.start == at.end {
        return Err(Refusal::Missing);
    }
    let start = PREAMBLE_SIZE + at.start;
    let end = PREAMBLE_SIZE + at.end;
    match_label(&lent[start..end], label, scratch, parts, budget)
}

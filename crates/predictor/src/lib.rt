// Walks letter by letter (document 01, Walks): a record of bytes that is opened, fed and finished on a prepared table.
// A call is decided first, by what it reads (crate deciding); only then is the record written, and a refused call writes nothing.
#![tactic(auto)]

ghost use Rattle.std.specs.Prelude.{◌≡◌};
ghost use Rattle.predictor.specs.Calls.{Opens, Feeds, Ends};
ghost use Rattle.predictor.specs.inner.Parts.{last_after};

use deciding::{Answer, Resolution};
use records::HELD_FROM;
use refusals::Refusal;

// The last resolved state once a position is resolved, or none.
#[inline(always)]
fn last_after(resolved: Option<Resolution>, last: u8) -> u8
    ensures { result ≡ last_after resolved last }
{
    match resolved {
        Some(resolution) => resolution.state,
        None => last,
    }
}

// A fresh walk, in bytes that may hold anything.
pub fn open(table: &[u64], fresh: &mut [u8]) -> Answer
    ensures { Opens table.now fresh.old result fresh.new }
{
    let head = table::head_of(table)?;
    if fresh.len() < HELD_FROM + head.k {
        return Err(Refusal::Room);
    }
    let resolved = deciding::decide_open(head.k, head.succ.starts)?;
    let last = last_after(resolved, 255);
    records::start(fresh, head.k, last);
    Ok(resolved)
}

// One letter more; it may be any number.
pub fn feed(table: &[u64], rec: &mut [u8], letter: u32) -> Answer
    ensures { Feeds table.now rec.old letter result rec.new }
{
    let head = table::head_of(table)?;
    if rec.len() < HELD_FROM + head.k {
        return Err(Refusal::Room);
    }
    let resolved = deciding::decide(&head.succ, head.k, rec, letter)?;
    let last = last_after(resolved, rec[4]);
    records::keep(rec, head.k, letter as u8, last);
    Ok(resolved)
}

// The possible states of the positions that are not resolved, lowest first, and how many these are.
pub fn finish(table: &[u64], rec: &[u8], out: &mut [u64]) -> Result<usize, Refusal>
    ensures { Ends table.now rec.now result out.old out.new }
{
    let head = table::head_of(table)?;
    if rec.len() < HELD_FROM + head.k || out.len() < head.k {
        return Err(Refusal::Room);
    }
    if deciding::stand(&head.succ, head.k, rec) == 0 {
        return Err(Refusal::Record);
    }
    Ok(deciding::list_open(&head.succ, head.k, rec, out))
}

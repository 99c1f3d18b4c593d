// One step on a prepared table (document 02, W-204), whole walks, and verdicts on look-ahead words (document 01, Walks; Verdict on a
// look-ahead word). All judge what they are lent first; the walking itself is crate walks'.
#![tactic(auto)]

ghost use Rattle.std.specs.Prelude.{◌≡◌, not, ℕ, ◌^◌, ◌<◌};
ghost use Rattle.bitset.specs.Sets.{any};
ghost use Rattle.bitset.specs.Numbers.{has};
ghost use Rattle.semiautomata.specs.Walks.{step};
ghost use Rattle.semiautomata.specs.Successors.{successors};
ghost use Rattle.semiautomata.specs.Means.{means};
ghost use Rattle.walks.specs.Walking.{Letters};
ghost use Rattle.simulate.specs.Stepping.{StepsTo};
ghost use Rattle.simulate.specs.Walking.{Walks};
ghost use Rattle.simulate.specs.Verdicts.{Judges};
ghost use Rattle.simulate.specs.inner.Verdicts.{ending_in, Computes, Names};

use bitset::Members;
use refusals::Refusal;
use semiautomata::successors::Successors;
use walks::Gathered;

// What a look-ahead word tells of a critical set: its states that can walk the word, whether the word is a minimal selector, and the
// states of which it is a maximal nonselector.
#[derive(Clone, Copy)]
pub struct Verdict {
    pub survivors: u64,
    pub minimal: bool,
    pub nonselected: u64,
}

// One step from a set of states by a letter, the lowest member first.
pub fn step(table: &[u64], set: u64, letter: u32) -> Result<Gathered, Refusal>
    ensures { StepsTo table.now set letter result }
{
    let succ = table::head_of(table)?.succ;
    // a bit n or higher: shifted by n - 1, since n may be 64
    if succ.m <= letter as usize || set >> (succ.n - 1) > 1 {
        return Err(Refusal::Letter);
    }
    Ok(walks::gather(&succ, set, letter as usize))
}

// A whole walk: g, and the possible states at positions 0 to g into the lent numbers.
pub fn walk(table: &[u64], word: &[u8], out: &mut [u64]) -> Result<usize, Refusal>
    ensures { Walks table.now word.now result out.old out.new }
{
    let succ = table::head_of(table)?.succ;
    if out.len() <= word.len() {
        return Err(Refusal::Room);
    }
    if walks::letter_off(word, succ.m as u64) {
        return Err(Refusal::Letter);
    }
    if succ.starts == 0 {
        return Err(Refusal::Nowhere);
    }
    let g = walks::trace(&succ, succ.starts, word, out);
    Ok(g)
}

// Whether no letter leads anywhere from a set.
fn stuck(succ: &Successors, set: u64) -> bool
    requires { set < 2 ^ succ.now.n }
    ensures { (starts : ℕ)
        → result ≡ not (any succ.now.m (λ a. any succ.now.n (step (successors succ.now.n succ.now.m starts succ.now.sets.now) (has set) a))) }
{
    (0..succ.m).all(|letter| walks::gather(succ, set, letter).set == 0)
}

// The members of a set that can walk no longer word that begins with this one.
fn ending(succ: &Successors, set: u64, word: &[u8]) -> u64
    requires { (set < 2 ^ succ.now.n) × Letters succ.now.m word.now }
    ensures { (starts : ℕ) → result ≡ ending_in (successors succ.now.n succ.now.m starts succ.now.sets.now) set word.now }
{
    let mut out: u64 = 0;
    for s in Members::of(set) {
        let member: u64 = 1 << s;
        if stuck(succ, walks::reach_by(succ, member, word)) {
            out |= member;
        }
    }
    out
}

// The verdict on a word for the members of a set. A shorter prefix leaves no fewer members, so for a minimal selector the longest
// proper prefix is enough to look at.
fn judge_set(succ: &Successors, set: u64, word: &[u8]) -> Verdict
    requires { (set < 2 ^ succ.now.n) × Letters succ.now.m word.now }
    ensures { (starts : ℕ) → Computes (successors succ.now.n succ.now.m starts succ.now.sets.now) (has set) word.now result }
{
    let survivors = walks::survivors_of(succ, set, word);
    match survivors.count_ones() {
        0 => Verdict {
            survivors,
            minimal: false,
            nonselected: 0,
        },
        1 => {
            let minimal = match word.split_last() {
                None => true,
                Some((_, before)) => walks::survivors_of(succ, set, before).count_ones() != 1,
            };
            Verdict {
                survivors,
                minimal,
                nonselected: 0,
            }
        }
        _ => Verdict {
            survivors,
            minimal: false,
            nonselected: ending(succ, survivors, word),
        },
    }
}

// The critical set that a state and a letter name; 255 and 0 name the initial states.
fn critical_set(succ: &Successors, state: u32, letter: u32) -> Result<u64, Refusal>
    ensures { Names (means succ.now) state letter result }
{
    if state == 255 && letter == 0 {
        return Ok(succ.starts);
    }
    let q = state as usize;
    let a = letter as usize;
    if q >= succ.n || a >= succ.m {
        return Err(Refusal::Letter);
    }
    Ok(succ.of(q, a))
}

// The verdict on a word for the critical set that a state and a letter name.
pub fn judge(table: &[u64], state: u32, letter: u32, word: &[u8]) -> Result<Verdict, Refusal>
    ensures { Judges table.now state letter word.now result }
{
    let succ = table::head_of(table)?.succ;
    if walks::letter_off(word, succ.m as u64) {
        return Err(Refusal::Letter);
    }
    let set = critical_set(&succ, state, letter)?;
    Ok(judge_set(&succ, set, word))
}

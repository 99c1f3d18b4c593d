// What a record of a walk comes to on a semiautomaton by its successor sets (document 01, Walks): where it stands, what is due, the answers to
// opening and to a letter, the possible states of what is open. Nothing of the record is written here.
#![tactic(auto)]

ghost use Rattle.std.specs.Prelude.{◌≡◌, ℕ, suc, ◌+◌, ◌^◌, ◌≤◌, ◌<◌, length};
ghost use Rattle.bitset.specs.Numbers.{has, set_of};
ghost use Rattle.semiautomata.specs.Walks.{reach};
ghost use Rattle.semiautomata.specs.Successors.{successors};
ghost use Rattle.semiautomata.specs.Means.{means};
ghost use Rattle.semiautomata.specs.Sizes.{max_lookahead};
ghost use Rattle.streaming.specs.PlainWalk.{limit};
ghost use Rattle.records.specs.Bytes.{held_from};
ghost use Rattle.deciding.specs.Replies.{said};
ghost use Rattle.deciding.specs.Deciding.{standing, resolving, opening, decision, Endable, ListsOpen};
ghost use Rattle.deciding.specs.inner.Parts.{base_set, ReadOn, due_after};

use refusals::Refusal;
use semiautomata::successors::Successors;

// A position whose state is told, and the state.
#[derive(Clone, Copy)]
pub struct Resolution {
    pub position: u32,
    pub state: u8,
}

// What opening and a letter fed answer: a refusal, a resolved position, or that none was resolved.
pub type Answer = Result<Option<Resolution>, Refusal>;

// The most positions of a held word, its first and its last among them.
const MAX_POSITIONS: usize = semiautomata::MAX_LOOKAHEAD + 1;

// READING A RECORD

// The base: the initial states while fewer than k letters are taken, else the last resolved state.
#[inline(always)]
#[tactic(auto, unfolding(crate::specs::inner::Parts::base_set))]
fn base_of(k: usize, starts: u64, fed: usize, last: u8) -> u64
    ensures { result ≡ base_set k starts fed last }
{
    if fed < k {
        starts
    } else {
        bitset::singleton(last as u32)
    }
}

// The states that a word leads to from a set, whatever its bytes are: a letter of m or more leads nowhere.
#[inline(always)]
fn follow(succ: &Successors, set: u64, word: &[u8]) -> u64
    requires { set < 2 ^ succ.now.n }
    ensures { (starts : ℕ)
        → result ≡ set_of succ.now.n (reach (successors succ.now.n succ.now.m starts succ.now.sets.now) (has set) word.now) }
{
    if walks::letter_off(word, succ.m as u64) {
        return 0;
    }
    walks::reach_by(succ, set, word)
}

// The states that the held letters lead to from the base; none where the record breaks its rules.
pub fn stand(succ: &Successors, k: usize, rec: &[u8]) -> u64
    requires { held_from + k ≤ length rec.now }
    ensures { result ≡ standing (means succ.now) k rec.now }
{
    let fed = records::fed_of(rec);
    let held = records::held_of(rec);
    let last = rec[4];
    if !records::is_tidy(rec, k) {
        return 0;
    }
    if !records::is_regular(succ.n, k, fed, last as usize, held) {
        return 0;
    }
    let base = base_of(k, succ.starts, fed, last);
    follow(succ, base, records::letters_of(rec))
}

// DECIDING

// The possible states, once a letter is read behind the held ones and has led to `next`, at the position that k letters then follow.
fn due(succ: &Successors, k: usize, base: u64, held: &[u8], letter: usize, next: u64) -> u64
    requires { (base < 2 ^ succ.now.n) × (k ≤ suc (length held.now)) × ReadOn (means succ.now) base held.now letter next }
    ensures { (starts : ℕ) → result ≡ due_after (successors succ.now.n succ.now.m starts succ.now.sets.now) k base held.now letter }
{
    if k == 0 {
        return next;
    }
    let i = held.len() + 1 - k;
    let here = walks::reach_by(succ, base, &held[..i]);
    if u64::count_ones(here) == 1 {
        return here; // the way that led to `next` goes on from it
    }
    walks::survivors_with(succ, here, &held[i..], letter)
}

// A position is resolved where one state is possible.
#[inline(always)]
fn resolve(position: usize, set: u64) -> Answer
    requires { position ≤ limit }
    ensures { said result ≡ resolving position set }
{
    if u64::count_ones(set) == 1 {
        Ok(Some(Resolution {
            position: position as u32,
            state: u64::trailing_zeros(set) as u8,
        }))
    } else {
        Err(Refusal::Undecided)
    }
}

// The answer to a letter; nothing is written.
pub fn decide(succ: &Successors, k: usize, rec: &[u8], letter: u32) -> Answer
    requires { (held_from + k ≤ length rec.now) × (k ≤ max_lookahead) }
    ensures { said result ≡ (decision (means succ.now) k rec.now letter).reply }
{
    let here = stand(succ, k, rec);
    if here == 0 {
        return Err(Refusal::Record);
    }
    let fed = records::fed_of(rec);
    if fed == records::LIMIT {
        return Err(Refusal::Limit);
    }
    let a = letter as usize;
    if succ.m <= a {
        return Err(Refusal::Letter);
    }
    let next = walks::gather(succ, here, a);
    if next.set == 0 {
        return Err(Refusal::Nowhere);
    }
    let taken = fed + 1;
    if taken < k {
        return Ok(None);
    }
    let base = base_of(k, succ.starts, fed, rec[4]);
    let set = due(succ, k, base, records::letters_of(rec), a, next.set);
    resolve(taken - k, set)
}

// The answer to opening.
#[tactic(auto, unfolding(crate::specs::Deciding::opening))]
pub fn decide_open(k: usize, starts: u64) -> Answer
    ensures { said result ≡ opening k starts }
{
    if starts == 0 {
        return Err(Refusal::Nowhere);
    }
    if 0 < k {
        return Ok(None);
    }
    resolve(0, starts)
}

// ENDING

// The possible states of the positions of a sound record that are not resolved, and how many these are.
pub fn list_open(succ: &Successors, k: usize, rec: &[u8], out: &mut [u64]) -> usize
    requires { Endable (means succ.now) k rec.now out.old }
    ensures { ListsOpen (means succ.now) k rec.now result out.old out.new }
{
    let held = records::letters_of(rec);
    let base = base_of(k, succ.starts, records::fed_of(rec), rec[4]);
    let mut all = [0; MAX_POSITIONS];
    walks::trace(succ, base, held, &mut all);
    let upto = held.len() + 1;
    let count = upto.min(k);
    let from = upto - count;
    slices::copy(out, &all[from..upto]);
    count
}

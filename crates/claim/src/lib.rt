// The check of a claim that a plan has no look-ahead: plan bytes and any claim, true, false or nonsense.
#![tactic(auto)]

ghost use Rattle.std.specs.Prelude.{ℕ, ◌^◌, ◌<◌};
ghost use Rattle.semiautomata.specs.Successors.{successors};
ghost use Rattle.semiautomata.specs.Means.{means};
ghost use Rattle.walks.specs.Walking.{Letters};
ghost use Rattle.plan.specs.Bytes.{asked};
ghost use Rattle.claim.specs.Checking.{Checks};
ghost use Rattle.claim.specs.inner.Steps.{LedBack, Loops, NamedSet, Truth};

use bitset::Members;
use lookahead::Evidence;
use refusals::Refusal;
use semiautomata::successors::Successors;

// The states of the critical set that two numbers name, if it counts; none where they name none, or the fork set of a state that no walk
// reaches.
fn set_named(succ: &Successors, state: u32, letter: u32) -> u64
    ensures { NamedSet (means succ.now) state letter result }
{
    if (state == 255) & (letter == 0) {
        return succ.starts;
    }
    let q = state as usize;
    let a = letter as usize;
    if (succ.n <= q) | (succ.m <= a) {
        return 0;
    }
    if !bitset::contains(walks::reachable(succ), state) {
        return 0;
    }
    succ.of(q, a)
}

// Whether some member of a set is led back to itself by the word.
fn comes_back(succ: &Successors, set: u64, cycle: &[u8]) -> bool
    requires { (set < 2 ^ succ.now.n) × Letters succ.now.m cycle.now }
    ensures { (starts : ℕ) → LedBack (successors succ.now.n succ.now.m starts succ.now.sets.now) set cycle.now result }
{
    for s in Members::of(set) {
        let member: u64 = 1 << s;
        if walks::reach_by(succ, member, cycle) & member != 0 {
            return true;
        }
    }
    false
}

// Whether the stem leads from a state to one that the cycle leads back to itself.
fn has_lasso(succ: &Successors, s: u32, stem: &[u8], cycle: &[u8]) -> bool
    requires { (s < succ.now.n) × Letters succ.now.m stem.now × Letters succ.now.m cycle.now }
    ensures { (starts : ℕ) → Loops (successors succ.now.n succ.now.m starts succ.now.sets.now) s stem.now cycle.now result }
{
    let knots = walks::reach_by(succ, bitset::singleton(s), stem);
    comes_back(succ, knots, cycle)
}

// The claim about sets that are loaded.
fn is_true(succ: &Successors, claim: Evidence, letters: &[u8]) -> bool
    ensures { Truth (means succ.now) claim letters.now result }
{
    let s = claim.low;
    let t = claim.high;
    let set = set_named(succ, claim.state, claim.letter);
    if (t <= s) | !bitset::contains(set, s) | !bitset::contains(set, t) {
        return false;
    }
    let stem = claim.stem as usize;
    let cycle = claim.cycle as usize;
    let end = stem + cycle;
    if (cycle == 0) | (succ.n * succ.n < end) | (letters.len() < end) {
        return false;
    }
    let word = &letters[..end];
    if walks::letter_off(word, succ.m as u64) {
        return false;
    }
    let (lead_in, round) = word.split_at(stem);
    has_lasso(succ, s, lead_in, round) & has_lasso(succ, t, lead_in, round)
}

// The reader's refusal; yes if and only if the claim is true of the plan for the party; otherwise no.
pub fn check(plan: &[u8], party: u32, claim: Evidence, letters: &[u8]) -> Result<bool, Refusal>
    ensures { Checks (asked plan.now party) claim letters.now result }
{
    let mut sets = [0u64; semiautomata::MAX_SETS];
    let loaded = plan::load(plan, party, &mut sets)?;
    Ok(is_true(&loaded.over(&sets), claim, letters))
}

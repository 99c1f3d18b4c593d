// The need of each critical set by itself (W-205): for how long its states share words. Which pairs of states are rivals, and which
// states walks reach, comes from crate lookahead, how long rivals live from crate pairs, as the look-ahead does; a set's need is the
// longest that two of its states live.
#![tactic(auto)]

ghost use Rattle.std.specs.Prelude.{◌&&◌, ◌+◌, ◌*◌, ◌≤◌, ◌<◌, eqb, length};
ghost use Rattle.bitset.specs.Numbers.{has};
ghost use Rattle.semiautomata.specs.Means.{means};
ghost use Rattle.plan.specs.Bytes.{asked};
ghost use Rattle.needs.specs.Needs.{NeedsOf, Filled};
ghost use Rattle.needs.specs.inner.Longest.{Most, LongestLived};
ghost use Rattle.needs.specs.inner.Entering.{Entered, ForksEntered};

use bitset::Members;
use pairs::lifetimes::{ENDLESS, PAIRS};
use refusals::Refusal;
use semiautomata::successors::Successors;

// The number of a set that is empty or does not count.
pub const UNMEASURED: u16 = 65534;

// The longest that s lives with one of the others, or what was longest before.
fn longest_with(lifetimes: &[u16; PAIRS], s: usize, others: u64, before: u16) -> u16
    requires { s < 64 }
    ensures { Most lifetimes.now (λ x t. eqb s x && has others t) before result }
{
    let mut longest = before;
    for t in Members::of(others) {
        longest = longest.max(lifetimes[s * 64 + t]);
    }
    longest
}

// The longest that two different states of the set live. Each pair is looked at once; behind a state that lives for ever with another
// nothing is looked at.
fn longest(lifetimes: &[u16; PAIRS], set: u64) -> u16
    ensures { LongestLived lifetimes.now (has set) result }
{
    let mut longest: u16 = 0;
    for s in Members::of(set) {
        if longest == ENDLESS {
            return longest;
        }
        let lower = set & bitset::mask(s as u32);
        longest = longest_with(lifetimes, s, lower, longest);
    }
    longest
}

// The number of a critical set, by its states and whether it counts where it has some.
fn entry(lifetimes: &[u16; PAIRS], set: u64, counts: bool) -> u16
    ensures { Entered lifetimes.now set counts result }
{
    if counts && set != 0 {
        longest(lifetimes, set)
    } else {
        UNMEASURED
    }
}

// The numbers of the fork sets, state by state and letter by letter, behind the first number.
fn enter_forks(needs: &mut [u16], lifetimes: &[u16; PAIRS], succ: &Successors, reached: u64)
    requires { succ.now.n * succ.now.m + 1 ≤ length needs.old }
    ensures { ForksEntered lifetimes.now succ.now.m succ.now.sets.now reached 0 (succ.now.n * succ.now.m) needs.old needs.new }
{
    let succ = *succ; // by value, so that the loop has its parts at hand
    for q in 0..succ.n {
        let counts = bitset::contains(reached, q as u32);
        for a in 0..succ.m {
            needs[q * succ.m + a + 1] = entry(lifetimes, succ.of(q, a), counts);
        }
    }
}

// The numbers of all critical sets, the initial states' first, into lent numbers of which the rest is kept.
pub fn enter(needs: &mut [u16], succ: &Successors)
    requires { succ.now.n * succ.now.m + 1 ≤ length needs.old }
    ensures { Filled (means succ.now) needs.old needs.new }
{
    let mut rival = [0u64; 64];
    let reached = lookahead::rivals::rivals(&mut rival, succ);
    let mut lifetimes = [ENDLESS; PAIRS];
    // what the lifetimes come to is all that is wanted
    let _ = pairs::settle(&mut lifetimes, succ, &rival);
    needs[0] = entry(&lifetimes, succ.starts, true);
    enter_forks(needs, &lifetimes, succ, reached);
}

// The needs of a plan's critical sets for a party: how many numbers are written.
pub fn of_plan(plan: &[u8], party: u32, needs: &mut [u16]) -> Result<usize, Refusal>
    ensures { NeedsOf (asked plan.now party) result needs.old needs.new }
{
    let mut sets = [0u64; semiautomata::MAX_SETS];
    let loaded = plan::load(plan, party, &mut sets)?;
    let succ = loaded.over(&sets);
    let count = succ.n * succ.m + 1;
    if needs.len() < count {
        return Err(Refusal::Room);
    }
    enter(needs, &succ);
    Ok(count)
}

// Which pairs of states are rivals, from the critical sets that count: the initial states, and the fork sets of the states that some walk
// reaches.
ghost use Rattle.std.specs.Prelude.{◌≡◌, ◌-◌, ◌<◌, replicate};
ghost use Rattle.std.specs.Int.Bits.{bit_and};
ghost use Rattle.bitset.specs.Numbers.{set_of};
ghost use Rattle.semiautomata.specs.Access.{accessible};
ghost use Rattle.semiautomata.specs.Means.{means};
ghost use Rattle.walks.specs.Walking.{led_by};
ghost use Rattle.lookahead.specs.Rivals.{Rivalry};
ghost use Rattle.lookahead.specs.inner.Rivals.{Matched, Forked};

use bitset::Members;
use semiautomata::successors::Successors;

// The set without its least state.
#[inline(always)]
fn but_least(set: u64) -> u64
    ensures { result ≡ bit_and set (set - 1) }
{
    set & set.wrapping_sub(1)
}

// The states of the set are paired with each other; of fewer than two there is nothing to pair.
fn pair_set(rows: &mut [u64; 64], set: u64)
    ensures { Matched set rows.old rows.new }
{
    if but_least(set) != 0 {
        rows::pair_up(rows, set, set);
    }
}

// The states of each fork set of q are paired with each other; answers all states of these sets.
fn pair_forks(rows: &mut [u64; 64], succ: &Successors, q: usize) -> u64
    requires { q < succ.now.n }
    ensures { Forked succ.now q succ.now.m rows.old rows.new
        × (result ≡ set_of succ.now.n (led_by succ.now.m succ.now.sets.now q succ.now.m)) }
{
    let succ = *succ; // by value, so that the loops have its parts at hand
    let mut out: u64 = 0;
    let mut several: u64 = 0;
    for letter in 0..succ.m {
        let set = succ.of(q, letter);
        out |= set;
        several |= but_least(set);
    }
    // some set has two states
    if several != 0 {
        for letter in 0..succ.m {
            pair_set(rows, succ.of(q, letter));
        }
    }
    out
}

// The pairs of different states that some critical set that counts has both of, into rows without pairs; answers the states that some
// walk reaches. A state is taken as in `walks::reachable`; its fork sets are joined and, where one has two states, paired.
pub fn rivals(rows: &mut [u64; 64], succ: &Successors) -> u64
    requires { rows.old ≡ replicate 64 0 }
    ensures { Rivalry (means succ.now) rows.new × (result ≡ set_of succ.now.n (accessible (means succ.now))) }
{
    pair_set(rows, succ.starts);
    let mut seen = succ.starts;
    let mut done: u64 = 0;
    while seen != done {
        let rest = seen ^ done;
        done = seen; // once the rest is taken
        for q in Members::of(rest) {
            seen |= pair_forks(rows, succ, q);
        }
    }
    seen
}

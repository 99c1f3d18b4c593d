// Walks over successor sets, wherever these stand, in a table or just loaded from a plan, and whatever the initial states are. The letters
// of a word are tested (`letter_off`); one letter forth (`gather`) and back (`back`), a word (`reach_by`, `survivors_with`,
// `survivors_of`), every position of a word (`trace`), any word from the initial states (`reachable`).
#![tactic(auto)]

ghost use Rattle.std.specs.Prelude.{◌≡◌, ◌&&◌, [], ◌∷◌, ◌++◌, ℕ, suc, ◌^◌, ◌≤◌, ◌<◌, length, get_or, take};
ghost use Rattle.bitset.specs.Sets.{any, size};
ghost use Rattle.bitset.specs.Numbers.{has, set_of};
ghost use Rattle.semiautomata.specs.Access.{accessible};
ghost use Rattle.semiautomata.specs.Walks.{step, reach, survivors, possible, longest};
ghost use Rattle.semiautomata.specs.Successors.{set_at, successors};
ghost use Rattle.semiautomata.specs.Means.{means};
ghost use Rattle.walks.specs.Walking.{letter_off, Letters, Written, led_by};

use bitset::Members;
use semiautomata::successors::Successors;

// Whether some letter of the word is not below m.
pub fn letter_off(word: &[u8], m: u64) -> bool
    ensures { result ≡ letter_off m word.now }
{
    let mut off = false;
    for letter in word {
        off |= m <= *letter as u64;
    }
    off
}

// A set of states, and how many rounds it took to gather it.
#[derive(Clone, Copy)]
pub struct Gathered {
    pub set: u64,
    pub rounds: u32,
}

// The step from a set by one letter: what each member leads to is joined, the lowest member first.
pub fn gather(succ: &Successors, set: u64, letter: usize) -> Gathered
    requires { (set < 2 ^ succ.now.n) × (letter < succ.now.m) }
    ensures { ((starts : ℕ)
        → result.set ≡ set_of succ.now.n (step (successors succ.now.n succ.now.m starts succ.now.sets.now) (has set) letter))
        × (result.rounds ≡ size succ.now.n (has set)) }
{
    let mut out: u64 = 0;
    let mut rounds: u32 = 0;
    for s in Members::of(set) {
        out |= succ.of(s, letter);
        rounds += 1;
    }
    Gathered { set: out, rounds }
}

// The members of a set that the letter leads to some member of the target.
fn back(succ: &Successors, set: u64, letter: usize, target: u64) -> u64
    requires { (set < 2 ^ succ.now.n) × (letter < succ.now.m) × (target < 2 ^ succ.now.n) }
    ensures { result ≡ set_of succ.now.n (λ s. has set s
        && any succ.now.n (λ t. has target t && has (set_at succ.now.m succ.now.sets.now s letter) t)) }
{
    let mut out: u64 = 0;
    for s in Members::of(set) {
        if target & succ.of(s, letter) != 0 {
            out |= 1 << s;
        }
    }
    out
}

// The states that a word leads to from a set.
pub fn reach_by(succ: &Successors, set: u64, word: &[u8]) -> u64
    requires { (set < 2 ^ succ.now.n) × Letters succ.now.m word.now }
    ensures { (starts : ℕ)
        → result ≡ set_of succ.now.n (reach (successors succ.now.n succ.now.m starts succ.now.sets.now) (has set) word.now) }
{
    let mut out = set;
    for letter in word {
        let next = gather(succ, out, *letter as usize);
        out = next.set;
    }
    out
}

// The members of a set that can walk the word and then one letter more; each is tested, also where it is the only one.
pub fn survivors_with(succ: &Successors, set: u64, word: &[u8], letter: usize) -> u64
    requires { (set < 2 ^ succ.now.n) × Letters succ.now.m word.now × (letter < succ.now.m) }
    ensures { (starts : ℕ)
        → result ≡ set_of succ.now.n (survivors (successors succ.now.n succ.now.m starts succ.now.sets.now) (has set)
        (word.now ++ (letter ∷ []))) }
{
    let mut out: u64 = 0;
    for s in Members::of(set) {
        let member: u64 = 1 << s;
        let here = reach_by(succ, member, word);
        let next = gather(succ, here, letter);
        if next.set != 0 {
            out |= member;
        }
    }
    out
}

// The members of a set that can walk the word.
pub fn survivors_of(succ: &Successors, set: u64, word: &[u8]) -> u64
    requires { (set < 2 ^ succ.now.n) × Letters succ.now.m word.now }
    ensures { (starts : ℕ)
        → result ≡ set_of succ.now.n (survivors (successors succ.now.n succ.now.m starts succ.now.sets.now) (has set) word.now) }
{
    if word.len() == 0 {
        return set;
    }
    let last = word.len() - 1;
    survivors_with(succ, set, &word[..last], word[last] as usize)
}

// Stores what the first 0, 1, 2, .. letters lead to from a set that is not empty, as long as they lead somewhere; answers how many do.
fn forward(succ: &Successors, set: u64, word: &[u8], out: &mut [u64]) -> usize
    requires { (set < 2 ^ succ.now.n) × ¬ (set ≡ 0) × Letters succ.now.m word.now × (suc (length word.now) ≤ length out.old) }
    ensures { (result ≡ longest (successors succ.now.n succ.now.m set succ.now.sets.now) word.now)
        × Written succ.now.n (take result word.now)
        (λ i. reach (means succ.now) (has set) (take i (take result word.now))) out.old
        out.new }
{
    out[0] = set;
    let mut here = set;
    for g in 0..word.len() {
        let next = gather(succ, here, word[g] as usize);
        if next.set == 0 {
            return g;
        }
        here = next.set;
        out[g + 1] = here;
    }
    word.len()
}

// From such sets, from the last one back, those states from which the other letters can be walked.
fn backward(succ: &Successors, set: u64, word: &[u8], out: &mut [u64])
    requires { (set < 2 ^ succ.now.n) × Letters succ.now.m word.now × (suc (length word.now) ≤ length out.old)
        × ((i : ℕ) → i ≤ length word.now
        → get_or out.old i 0 ≡ set_of succ.now.n (reach (means succ.now) (has set) (take i word.now))) }
    ensures { (starts : ℕ)
        → Written succ.now.n word.now (possible (successors succ.now.n succ.now.m starts succ.now.sets.now) (has set) word.now)
        out.old out.new }
{
    for i in (0..word.len()).rev() {
        out[i] = back(succ, out[i], word[i] as usize, out[i + 1]);
    }
}

// The possible states at each position of the longest beginning that can be walked from a set that is not empty; answers its length.
pub fn trace(succ: &Successors, set: u64, word: &[u8], out: &mut [u64]) -> usize
    requires { (set < 2 ^ succ.now.n) × ¬ (set ≡ 0) × Letters succ.now.m word.now × (suc (length word.now) ≤ length out.old) }
    ensures { (result ≡ longest (successors succ.now.n succ.now.m set succ.now.sets.now) word.now)
        × ((starts : ℕ) → Written succ.now.n (take result word.now)
        (possible (successors succ.now.n succ.now.m starts succ.now.sets.now) (has set) (take result word.now)) out.old out.new) }
{
    let g = forward(succ, set, word, out);
    backward(succ, set, &word[..g], out);
    g
}

// The states that some letter leads to from s.
fn leads_to(succ: &Successors, s: usize) -> u64
    requires { s < succ.now.n }
    ensures { result ≡ set_of succ.now.n (led_by succ.now.m succ.now.sets.now s succ.now.m) }
{
    let mut out: u64 = 0;
    for a in 0..succ.m {
        out |= succ.of(s, a);
    }
    out
}

// The states that some walk from an initial state reaches: of what is seen and not done each state is taken, and what its letters lead to
// is joined, until nothing is to do.
pub fn reachable(succ: &Successors) -> u64
    ensures { result ≡ set_of succ.now.n (accessible (means succ.now)) }
{
    let mut seen = succ.starts;
    let mut done: u64 = 0;
    while seen != done {
        let rest = seen ^ done;
        done = seen; // once the rest is taken
        for s in Members::of(rest) {
            seen |= leads_to(succ, s);
        }
    }
    seen
}

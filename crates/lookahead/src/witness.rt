// The witness that there is no look-ahead: the name of a critical set with two states that share words of every length, and a stem and a
// cycle that both can follow.
ghost use Rattle.std.specs.Prelude.{Err, ◌&&◌, ◌≡◌, ◌*◌, ◌≤◌, ◌<◌, length};
ghost use Rattle.bitset.specs.Numbers.{has, set_of};
ghost use Rattle.semiautomata.specs.Access.{accessible};
ghost use Rattle.semiautomata.specs.Means.{means};
ghost use Rattle.lookahead.specs.Rivals.{Together};
ghost use Rattle.lookahead.specs.inner.Rivals.{Named, Lasts};
ghost use Rattle.lookahead.specs.Answers.{Answers};

use crate::Evidence;
use bitset::Members;
use pairs::Endless;
use semiautomata::successors::Successors;

// Whether the set has both states.
#[inline(always)]
fn has_both(set: u64, s: usize, t: usize) -> bool
    requires { (s < 64) × (t < 64) }
    ensures { result ≡ (has set s && has set t) }
{
    bitset::contains(set, s as u32) & bitset::contains(set, t as u32)
}

// A critical set by a state and a letter, 255 and 0 for the initial states.
#[derive(Clone, Copy)]
pub struct Name {
    pub state: u32,
    pub letter: u32,
}

// A critical set that counts and has both states; there is one.
pub fn critical_set(succ: &Successors, reached: u64, s: usize, t: usize) -> Name
    requires { Together (means succ.now) s t × (reached ≡ set_of succ.now.n (accessible (means succ.now))) }
    ensures { Named (means succ.now) result.state result.letter s t }
{
    if has_both(succ.starts, s, t) {
        return Name {
            state: 255,
            letter: 0,
        };
    }
    for q in Members::of(reached) {
        for letter in 0..succ.m {
            if has_both(succ.of(q, letter), s, t) {
                return Name {
                    state: q as u32,
                    letter: letter as u32,
                };
            }
        }
    }
    unreachable!()
}

// From two states that share words of every length on to such pairs, until one comes again: the letters are written, and what they show
// is answered.
pub fn evidence(succ: &Successors, reached: u64, endless: &Endless, letters: &mut [u8]) -> Evidence
    requires lasts { Lasts (means succ.now) endless.now }
    requires fit { (succ.now.n * succ.now.n ≤ length letters.old)
        × (reached ≡ set_of succ.now.n (accessible (means succ.now))) }
    ensures { Answers (means succ.now) (Err result) letters.old letters.new }
{
    let set = critical_set(succ, reached, endless.low, endless.high);
    let mut seen = [0u16; semiautomata::MAX_EVIDENCE];
    let mut x = endless.low;
    let mut y = endless.high;
    let mut at = x * succ.n + y;
    let mut i: usize = 0;
    while seen[at] == 0 {
        seen[at] = (i + 1) as u16;
        // it shares words of every length: some letter leads it on to such a pair
        let step = pairs::lead(succ, &endless.live, x, y).unwrap();
        letters[i] = step.letter as u8;
        x = step.first;
        y = step.second;
        at = x * succ.n + y;
        i += 1;
    }
    let marked = seen[at] as usize;
    let stem = marked - 1;
    let cycle = i - stem;
    Evidence {
        state: set.state,
        letter: set.letter,
        low: endless.low as u32,
        high: endless.high as u32,
        stem: stem as u32,
        cycle: cycle as u32,
    }
}

// Rows of pairs of states: bit t of row s is the pair s and t. Pairs are put in (`pair_up`) and taken out (`without`), and two states are
// searched for (`common`). A table of successor sets is turned round (`turn`) by the same joining of sets at places. Rows are gone through
// by number, since a row's number is a state.
#![tactic(auto)]

ghost use Rattle.std.specs.Prelude.{true, ◌≡◌, ℕ, ◌≤◌, ◌<◌, length};
ghost use Rattle.bitset.specs.Numbers.{has};
ghost use Rattle.semiautomata.specs.Sizes.{max_sets};
ghost use Rattle.semiautomata.specs.Successors.{place, Blank};
ghost use Rattle.rows.specs.Rows.{Put, Without, Union, Searched};
ghost use Rattle.rows.specs.Turned.{Turned};
ghost use Rattle.rows.specs.inner.Joined.{JoinedAt};

use bitset::Members;
use semiautomata::MAX_SETS;
use semiautomata::successors::Successors;

// Each of the firsts has a place among `width` of its own, `at`: the seconds are joined to what stands there.
fn join(rows: &mut [u64], width: usize, at: usize, firsts: u64, seconds: u64)
    requires { (at < width) × ((s : ℕ) → has firsts s ≡ true → place width s at < length rows.old) }
    ensures { JoinedAt width at (has firsts) seconds rows.old rows.new }
{
    for s in Members::of(firsts) {
        rows[s * width + at] |= seconds;
    }
}

// Each state of `firsts` is paired with each of `seconds`.
pub fn pair_up(rows: &mut [u64; 64], firsts: u64, seconds: u64)
    ensures { Put firsts seconds rows.old rows.new }
{
    join(rows, 1, 0, firsts, seconds);
}

// The table turned round, into zeros: at each state and letter the states that the letter leads there.
pub fn turn(back: &mut [u64; MAX_SETS], succ: &Successors)
    requires { Blank max_sets back.old }
    ensures { (length back.new ≡ max_sets) × Turned succ.now back.new }
{
    for s in 0..succ.n {
        for a in 0..succ.m {
            join(back, succ.m, a, succ.of(s, a), 1 << s);
        }
    }
}

// In the first n rows the struck pairs are taken out, where they are among them; in any case those are left that one of the two has and
// not the other. The other rows are kept. Answers the union of the first n rows as they are left.
pub fn without(rows: &mut [u64; 64], n: usize, struck: &[u64; 64]) -> u64
    requires { n ≤ 64 }
    ensures { Without rows.old struck.now rows.new n × Union rows.new result n }
{
    let mut any: u64 = 0;
    for s in 0..n {
        rows[s] ^= struck[s];
        any |= rows[s];
    }
    any
}

// Two different states that are a pair of both rows, the lower first.
pub fn common(n: usize, live: &[u64; 64], rival: &[u64; 64]) -> Option<(usize, usize)>
    requires { n ≤ 64 }
    ensures { Searched n live.now rival.now result }
{
    for high in 0..n {
        let both = live[high] & rival[high] & bitset::mask(high as u32);
        if let Some(low) = Members::of(both).next() {
            return Some((low, high));
        }
    }
    None
}

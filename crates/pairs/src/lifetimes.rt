// How long struck pairs have lived, written down: a number for each pair, those of one state in a row of 64.
ghost use Rattle.std.specs.Prelude.{◌&&◌, ◌≡◌, ◌≤◌, ◌<◌, eqb, ltb, length};
ghost use Rattle.bitset.specs.Numbers.{has};
ghost use Rattle.rows.specs.Rows.{pair};
ghost use Rattle.pairs.specs.Lifetimes.{max_pairs};
ghost use Rattle.pairs.specs.inner.Noting.{Noted, NotedWhere};

use bitset::Members;

// A number for each pair of states.
pub const PAIRS: usize = semiautomata::MAX_STATES * semiautomata::MAX_STATES;

// The number of a pair that shares words of every length.
pub const ENDLESS: u16 = 65535;

// The number of each pair of s with a state of the set.
fn note_row(lifetimes: &mut [u16], s: usize, set: u64, letters: u16)
    requires { (s < 64) × (length lifetimes.old ≡ max_pairs) }
    ensures { Noted (λ x t. eqb s x && has set t) letters lifetimes.old lifetimes.new }
{
    for t in Members::of(set) {
        lifetimes[s * 64 + t] = letters;
    }
}

// The number of each struck pair; the others are kept. Where not as many numbers are lent as there are pairs, nothing is written.
pub fn note(lifetimes: &mut [u16], n: usize, struck: &[u64; 64], letters: u16)
    requires { n ≤ 64 }
    ensures { NotedWhere (λ s t. ltb s n && pair struck.now s t) letters lifetimes.old lifetimes.new }
{
    if lifetimes.len() != PAIRS {
        return;
    }
    for s in 0..n {
        note_row(lifetimes, s, struck[s], letters);
    }
}

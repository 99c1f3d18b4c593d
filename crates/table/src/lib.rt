// The prepared plan (document 01) as a table of 64-bit numbers. `head_of` is the one door to a table: it tests refusal 8 and lends the plan
// on by its successor sets. `write` lays a table out.
#![tactic(auto)]

ghost use Rattle.std.specs.Prelude.{◌≡◌, ℕ, ◌+◌, ◌*◌, ◌≤◌, length, get_or};
ghost use Rattle.bitset.specs.Sets.{any};
ghost use Rattle.bitset.specs.Numbers.{has};
ghost use Rattle.semiautomata.specs.Means.{means};
ghost use Rattle.table.specs.Table.{sets_from, unfit, contents, laid_out};
ghost use Rattle.table.specs.Heads.{Heads};

use refusals::Refusal;
use semiautomata::successors::Successors;

// Where the sets begin; n, m, k and the initial states stand before them.
pub const SETS_FROM: usize = 4;

// The most numbers of a table.
pub const MAX_TABLE: usize = SETS_FROM + semiautomata::MAX_SETS;

// What a fit table holds: the plan, whose successor sets are lent from it, and the look-ahead.
#[derive(Clone, Copy)]
pub struct Head<'a> {
    pub succ: Successors<'a>,
    pub k: usize,
}

// All numbers of a slice joined.
fn union_of(sets: &[u64]) -> u64
    ensures { (t : ℕ) → has result t ≡ any (length sets.now) (λ i. has (get_or sets.now i 0) t) }
{
    let mut all = 0;
    for set in sets {
        all |= set;
    }
    all
}

// Refusal 8, of any numbers. The initial states stand just before the sets, and one test serves all of them.
fn is_unfit(table: &[u64]) -> bool
    ensures { result ≡ unfit table.now }
{
    if table.len() < SETS_FROM {
        return true;
    }
    let n = table[0];
    let m = table[1];
    if n < 1
        || n > semiautomata::MAX_STATES as u64
        || m < 1
        || m > semiautomata::MAX_LETTERS as u64
    {
        return true;
    }
    let end = SETS_FROM + n as usize * m as usize;
    if table.len() < end {
        return true;
    }
    let all = union_of(&table[3..end]);
    let mask = bitset::mask(n as u32);
    n * (n - 1) / 2 < table[2] || all & mask != all
}

#[tactic(auto, using(crate::proofs::Fitness::front_there))]
pub fn head_of(table: &[u64]) -> Result<Head, Refusal>
    ensures { Heads table.now result }
{
    if is_unfit(table) {
        return Err(Refusal::Table);
    }
    let succ = Successors {
        n: table[0] as usize,
        m: table[1] as usize,
        starts: table[3],
        sets: &table[SETS_FROM..],
    };
    Ok(Head {
        succ,
        k: table[2] as usize,
    })
}

// The form for a plan and its look-ahead k, into a table that keeps its rest.
pub fn write(table: &mut [u64], succ: &Successors, k: u64)
    requires { sets_from + succ.now.n * succ.now.m ≤ length table.old }
    ensures { table.new ≡ laid_out (contents (means succ.now) k) table.old }
{
    let cells = succ.n * succ.m;
    table[0] = succ.n as u64;
    table[1] = succ.m as u64;
    table[2] = k;
    table[3] = succ.starts;
    table[SETS_FROM..SETS_FROM + cells].copy_from_slice(&succ.sets[..cells]);
}

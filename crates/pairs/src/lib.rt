// The levels of live pairs: which pairs of states of successor sets share a word of 0 letters, of 1, of 2. The first round goes letter by
// letter (`strike_first`); a later one reads the level before, and looks again only at pairs that a letter leads to a pair struck in the
// last one (`strike_next`). The rounds are made until no rivals are left, which come in as rows, or a round strikes none (`settle`); where
// numbers are lent for it, how long each struck pair has lived is written down on the way. Rows are gone through by number, since a row's
// number is a state.
#![tactic(auto)]

pub mod lifetimes; // lifetimes.rt: how long struck pairs have lived, written down

ghost use Rattle.std.specs.Prelude.{not, ◌&&◌, ◌≡◌, ◌^◌, ◌<◌, replicate};
ghost use Rattle.bitset.specs.Numbers.{has, set_of};
ghost use Rattle.semiautomata.specs.Means.{means};
ghost use Rattle.rows.specs.Turned.{Turned};
ghost use Rattle.pairs.specs.Sharing.{leads, Led, Level, Settled};
ghost use Rattle.pairs.specs.Lifetimes.{Timed};
ghost use Rattle.pairs.specs.inner.Rounds.{Fits, led_on, Struck, Woken, Waking, every_pair, Ends, Standing};

use bitset::Members;
use semiautomata::MAX_SETS;
use semiautomata::successors::Successors;

// A letter that leads two states on to a pair of the rows, and that pair.
#[derive(Drop)]
pub struct Step {
    pub letter: usize,
    pub first: usize,
    pub second: usize,
}

pub fn lead(succ: &Successors, rows: &[u64; 64], s: usize, t: usize) -> Option<Step>
    requires { (s < succ.now.n) × (t < succ.now.n) }
    ensures { Led (means succ.now) rows.now s t result }
{
    let mut step = None;
    'letters: for letter in 0..succ.m {
        let firsts = succ.of(s, letter);
        let seconds = succ.of(t, letter);
        'firsts: for first in Members::of(firsts) {
            // of the states that live with the first
            'seconds: for second in Members::of(seconds & rows[first]) {
                step = Some(Step {
                    letter,
                    first,
                    second,
                });
                break 'letters;
            }
        }
    }
    step
}

// The states that the letter leads on.
fn led_on(succ: &Successors, letter: usize) -> u64
    requires { letter < succ.now.m }
    ensures { result ≡ led_on (means succ.now) succ.now.n letter }
{
    let mut out: u64 = 0;
    for s in 0..succ.n {
        if succ.of(s, letter) != 0 {
            out |= 1 << s;
        }
    }
    out
}

// The pairs that share a letter: some letter leads both states on.
fn share_letter(succ: &Successors) -> [u64; 64]
    ensures { Level (means succ.now) 1 result × Fits succ.now.n result }
{
    let mut live = [0u64; 64];
    for letter in 0..succ.m {
        let states = led_on(succ, letter);
        rows::pair_up(&mut live, states, states);
    }
    live
}

// The states of `work` that share no longer word with s.
fn strike_row(succ: &Successors, live: &[u64; 64], s: usize, work: u64) -> u64
    requires { (s < succ.now.n) × (work < 2 ^ succ.now.n) }
    ensures { result ≡ set_of succ.now.n (λ t. has work t && not (leads (means succ.now) live.now s t)) }
{
    let mut out: u64 = 0;
    for t in Members::of(work) {
        if lead(succ, live, s, t).is_none() {
            out |= 1 << t;
        }
    }
    out
}

// Of the live pairs that are looked at, those that share no longer word are put into rows without pairs; answers the lower states of them.
// A pair is tested with the higher state first, and struck in both orders.
fn strike(succ: &Successors, live: &[u64; 64], look: &[u64; 64], struck: &mut [u64; 64]) -> u64
    requires { struck.old ≡ replicate 64 0 }
    ensures { Struck (means succ.now) live.now look.now struck.new result succ.now.n }
{
    let mut gone: u64 = 0;
    for s in 0..succ.n {
        let work = look[s] & live[s] & bitset::mask(s as u32 + 1);
        let out = strike_row(succ, live, s, work);
        if out != 0 {
            rows::pair_up(struck, out, 1 << s);
            rows::pair_up(struck, 1 << s, out);
            gone |= out;
        }
    }
    gone
}

// Every pair that some letter leads to s and a state of the set is looked at.
fn wake_row(back: &Successors, s: usize, set: u64, look: &mut [u64; 64])
    requires { (s < back.now.n) × (set < 2 ^ back.now.n) }
    ensures { Woken back.now s set look.old look.new }
{
    for letter in 0..back.m {
        let firsts = back.of(s, letter);
        if firsts != 0 {
            let seconds = walks::gather(back, set, letter);
            rows::pair_up(look, firsts, seconds.set);
        }
    }
}

// Every pair that some letter leads to a struck one is put into `look`, of others nothing is said; `back` is the table turned round.
fn wake(back: &Successors, struck: &[u64; 64], look: &mut [u64; 64])
    requires { Fits back.now.n struck.now }
    ensures { Waking back.now struck.now look.new back.now.n }
{
    for s in 0..back.n {
        let set = struck[s];
        if set != 0 {
            wake_row(back, s, set, look);
        }
    }
}

// The first round, in rows that have every pair: those are left that share no letter. Answers 0 if there is none.
fn strike_first(struck: &mut [u64; 64], succ: &Successors) -> u64
    requires { struck.old ≡ every_pair succ.now.n }
    ensures { Ends (means succ.now) 0 struck.new result }
{
    let shared = share_letter(succ);
    rows::without(struck, succ.n, &shared)
}

// A later round: of the pairs that live with so many letters, those that share no longer word, in place of those that the last round
// struck. Answers 0 if there is none. The table is turned round into `back` the first time.
fn strike_next(
    struck: &mut [u64; 64],
    back: &mut [u64; MAX_SETS],
    succ: &Successors,
    rounds: usize,
    live: &[u64; 64],
) -> u64
    requires { Standing succ.now rounds live.now back.old struck.old }
    ensures { Ends (means succ.now) rounds struck.new result × Turned succ.now back.new }
{
    // only a second round needs it
    if rounds == 1 {
        rows::turn(back, succ);
    }
    // walked one letter at a time: it needs no initial states
    let turned = Successors {
        n: succ.n,
        m: succ.m,
        starts: 0,
        sets: back,
    };
    let mut look = [0u64; 64];
    wake(&turned, struck, &mut look);
    *struck = [0u64; 64];
    strike(succ, live, &look, struck)
}

// Two rivals among the pairs that live for ever, the lower state first, and these pairs.
#[derive(Drop)]
pub struct Endless {
    pub live: [u64; 64],
    pub low: usize,
    pub high: usize,
}

// How many rounds are made until no two rivals share a word of as many letters; or a round strikes no pair, and two of them do for ever.
// Where 4,096 numbers are lent, all 65,535, the lifetimes of rivals are written into them; where they are not as many, nothing is.
pub fn settle(lifetimes: &mut [u16], succ: &Successors, rival: &[u64; 64]) -> Result<usize, Endless>
    ensures { Settled (means succ.now) rival.now result
        × Timed (means succ.now) rival.now lifetimes.old lifetimes.new }
{
    let all = bitset::mask(succ.n as u32);
    let mut live = [all; 64];
    let Some((low, high)) = rows::common(succ.n, &live, rival) else {
        return Ok(0);
    };
    let mut struck = [all; 64];
    let gone = strike_first(&mut struck, succ);
    // none is struck: the level repeats, and no table need be cleared
    if gone == 0 {
        return Err(Endless { live, low, high });
    }
    let mut back = [0u64; MAX_SETS];
    let mut rounds: usize = 0;
    loop {
        rows::without(&mut live, succ.n, &struck);
        rounds += 1;
        lifetimes::note(lifetimes, succ.n, &struck, rounds as u16);
        let Some((low, high)) = rows::common(succ.n, &live, rival) else {
            return Ok(rounds);
        };
        let gone = strike_next(&mut struck, &mut back, succ, rounds, &live);
        if gone == 0 {
            return Err(Endless { live, low, high });
        }
    }
}

// The calls on a prepared table for C, over plain numbers and lent slices: one step, whole walks and verdicts. Where a slice for further
// values has too few places for the most that a call may have to put there, the call is refused with 9 before anything is written.
#![tactic(auto)]

ghost use Rattle.std.specs.Prelude.{◌≡◌, true, [], ◌∷◌};
ghost use Rattle.refusals.specs.Checks.{first_of, short};
ghost use Rattle.refusals.specs.Named.{number_of};
ghost use Rattle.table.specs.Table.{table_check};
ghost use Rattle.table_calls.specs.Promises.{PassesStep, PassesWalk, PassesVerdict};

use refusals::Refusal;

// What a call on a table is refused for that has no room for its further values: 8 or 9.
pub fn no_room(table: &[u64]) -> Refusal
    ensures { number_of result ≡ first_of (table_check table.now ∷ short true ∷ []) }
{
    match table::head_of(table) {
        Ok(_) => Refusal::Room,
        Err(r) => r,
    }
}

// One step: its rounds; further the set that it led to.
pub fn step(table: &[u64], set: u64, letter: u32, next: &mut [u64]) -> u32
    ensures { PassesStep table.now set letter result next.old next.new }
{
    if next.is_empty() {
        return numbers::refused(no_room(table));
    }
    match simulate::step(table, set, letter) {
        Ok(g) => {
            next[0] = g.set;
            g.rounds
        }
        Err(r) => numbers::refused(r),
    }
}

// A whole walk: 0; further g.
pub fn walk(table: &[u64], word: &[u8], sets: &mut [u64], length: &mut [u64]) -> u32
    ensures { PassesWalk table.now word.now result sets.old sets.new length.old
        length.new }
{
    if length.is_empty() {
        return numbers::refused(no_room(table));
    }
    match simulate::walk(table, word, sets) {
        Ok(g) => {
            length[0] = g as u64;
            0
        }
        Err(r) => numbers::refused(r),
    }
}

// The verdict on a word: 1 for a minimal selector, else 0; further both sets.
pub fn judge(table: &[u64], state: u32, letter: u32, word: &[u8], sets: &mut [u64]) -> u32
    ensures { PassesVerdict table.now state letter word.now result sets.old sets.new }
{
    if sets.len() < 2 {
        return numbers::refused(no_room(table));
    }
    match simulate::judge(table, state, letter, word) {
        Ok(v) => {
            sets[0] = v.survivors;
            sets[1] = v.nonselected;
            u32::from(v.minimal)
        }
        Err(r) => numbers::refused(r),
    }
}

// From plan bytes to a look-ahead: preparing and the count call.
// The look-ahead itself is found by crate lookahead, from successor sets; here plans are loaded, and buffers judged.
#![tactic(auto)]

ghost use Rattle.std.specs.Prelude.{◌≡◌};
ghost use Rattle.semiautomata.specs.Sizes.{Sized};
ghost use Rattle.semiautomata.specs.Means.{means};
ghost use Rattle.plan.specs.Bytes.{asked};
ghost use Rattle.prepare.specs.Preparing.{Prepares, CountsTo};
ghost use Rattle.prepare.specs.inner.Steps.{unchecked};
ghost use Rattle.prepare.specs.declared.Unprepared.TheVariants.{Refused, Unpredictable};

use lookahead::Evidence;
use refusals::Refusal;
use semiautomata::successors::Successors;

// What preparing and the count call answer in place of a look-ahead: a refusal, or (15) the evidence that there is none.
#[derive(Clone, Copy)]
pub enum Unprepared {
    Refused(Refusal),
    Unpredictable(Evidence),
}

pub type Prepared = Result<usize, Unprepared>;

impl From<Refusal> for Unprepared {
    ghost from_gives = { λ r x. x ≡ Refused r };

    fn from(r: Refusal) -> Unprepared {
        Unprepared::Refused(r)
    }
}

impl From<Evidence> for Unprepared {
    ghost from_gives = { λ e x. x ≡ Unpredictable e };

    fn from(e: Evidence) -> Unprepared {
        Unprepared::Unpredictable(e)
    }
}

// The look-ahead of loaded sets, once the letters are judged.
fn count_loaded(succ: &Successors, letters: &mut [u8]) -> Prepared
    requires { Sized (means succ.now) }
    ensures { CountsTo (unchecked (means succ.now)) result letters.old letters.new }
{
    if letters.len() < succ.n * succ.n {
        return Err(Unprepared::Refused(Refusal::Room));
    }
    let k = lookahead::look_ahead(succ, letters)?;
    Ok(k)
}

// The same with the table, which is judged first and written last.
fn prepare_loaded(succ: &Successors, table: &mut [u64], letters: &mut [u8]) -> Prepared
    requires { Sized (means succ.now) }
    ensures { Prepares (unchecked (means succ.now)) result table.old table.new letters.old letters.new }
{
    if table.len() < table::SETS_FROM + succ.n * succ.m {
        return Err(Unprepared::Refused(Refusal::Room));
    }
    let k = count_loaded(succ, letters)?;
    table::write(table, succ, k as u64);
    Ok(k)
}

// Preparing: the plan's table for a party, with its look-ahead, into the lent numbers.
pub fn prepare(plan: &[u8], party: u32, table: &mut [u64], letters: &mut [u8]) -> Prepared
    ensures { Prepares (asked plan.now party) result table.old table.new letters.old
        letters.new }
{
    let mut sets = [0u64; semiautomata::MAX_SETS];
    let loaded = plan::load(plan, party, &mut sets)?;
    let succ = loaded.over(&sets);
    prepare_loaded(&succ, table, letters)
}

// The count call: the look-ahead of a plan for a party, without a table.
pub fn count(plan: &[u8], party: u32, letters: &mut [u8]) -> Prepared
    ensures { CountsTo (asked plan.now party) result letters.old letters.new }
{
    let mut sets = [0u64; semiautomata::MAX_SETS];
    let read = plan::load(plan, party, &mut sets)?;
    let succ = read.over(&sets);
    count_loaded(&succ, letters)
}

// The calls on plan bytes for C, over plain numbers and lent slices: reading, preparing, the count call, the drawing program's entry, the
// check of a claim, writing, the needs of the critical sets and their page. Where a slice for further values has too few places for the
// most that a call may have to put there, the call is refused with 9 before anything is written.
#![tactic(auto)]

ghost use Rattle.std.specs.Prelude.{◌≡◌, ◌^◌, ◌<◌, ◌≤◌, true, [], ◌∷◌, ◌++◌, length, IfOk};
ghost use Rattle.refusals.specs.Checks.{first_of, short};
ghost use Rattle.refusals.specs.Named.{number_of};
ghost use Rattle.plan.specs.Bytes.{asked_checks, asked};
ghost use Rattle.prepare.specs.Preparing.{Draws};
ghost use Rattle.numbers.specs.Numbers.{Passed};
ghost use Rattle.plan_calls.specs.Promises.{of_prepared, claim_of, PassesReading, PassesPrepared, PassesCount, PassesCheck};
ghost use Rattle.plan_calls.specs.Promises.{PassesWriting, PassesNeeds, PassesPage};

use lookahead::Evidence;
use numbers::refused;
use prepare::{Prepared, Unprepared};
use refusals::Refusal;

// Room for the numbers of evidence.
const EVIDENCE: usize = 6;

// What a call on plan bytes is refused for that has no room for its further values: the refusal of what is asked, or 9.
fn no_room(plan: &[u8], party: u32) -> Refusal
    ensures { number_of result ≡ first_of (asked_checks plan.now party ++ (short true ∷ [])) }
{
    let mut sets = [0u64; semiautomata::MAX_SETS];
    match plan::load(plan, party, &mut sets) {
        Ok(_) => Refusal::Room,
        Err(r) => r,
    }
}

// Reading: n; further m, p and e.
pub fn read(plan: &[u8], counts: &mut [u32]) -> u32
    ensures { PassesReading plan.now result counts.old counts.new }
{
    if counts.len() < 3 {
        return refused(no_room(plan, 0));
    }
    match plan::read(plan) {
        Ok(c) => {
            slices::copy(counts, &[u32::from(c.m), u32::from(c.p), u32::from(c.e)]);
            u32::from(c.n)
        }
        Err(r) => refused(r),
    }
}

// What preparing and the count call answer, in numbers.
fn pass_prepared(prepared: Prepared, evidence: &mut [u32]) -> u32
    requires { IfOk prepared (λ k. k < 2 ^ 32) × (6 ≤ length evidence.old) }
    ensures { Passed (of_prepared prepared) result evidence.old evidence.new }
{
    match prepared {
        Ok(k) => k as u32,
        Err(Unprepared::Refused(r)) => refused(r),
        Err(Unprepared::Unpredictable(e)) => {
            slices::copy(
                evidence,
                &[e.state, e.letter, e.low, e.high, e.stem, e.cycle],
            );
            refused(Refusal::Unpredictable)
        }
    }
}

// Preparing: k; further, under 15, the six numbers of the evidence.
pub fn prepare(
    plan: &[u8],
    party: u32,
    table: &mut [u64],
    letters: &mut [u8],
    evidence: &mut [u32],
) -> u32
    ensures { PassesPrepared (asked plan.now party) result table.old table.new letters.old
        letters.new evidence.old evidence.new }
{
    if evidence.len() < EVIDENCE {
        return refused(no_room(plan, party));
    }
    pass_prepared(prepare::prepare(plan, party, table, letters), evidence)
}

// The count call, which answers as preparing does.
pub fn look_ahead(plan: &[u8], party: u32, letters: &mut [u8], evidence: &mut [u32]) -> u32
    ensures { PassesCount (asked plan.now party) result letters.old letters.new evidence.old
        evidence.new }
{
    if evidence.len() < EVIDENCE {
        return refused(no_room(plan, party));
    }
    pass_prepared(prepare::count(plan, party, letters), evidence)
}

// The drawing program's entry: the look-ahead for party 0, or the refusal, with no lent buffer.
pub fn count(plan: &[u8]) -> u32
    ensures { Draws (asked plan.now 0) result }
{
    let mut letters = [0u8; semiautomata::MAX_EVIDENCE];
    match prepare::count(plan, 0, &mut letters) {
        Ok(k) => k as u32,
        Err(Unprepared::Refused(r)) => refused(r),
        Err(Unprepared::Unpredictable(_)) => refused(Refusal::Unpredictable),
    }
}

// The claim that six numbers make; what is missing is 0. Fewer make one with no cycle, which is not true.
fn claim_of(claim: &[u32]) -> Evidence
    ensures { result ≡ claim_of claim.now }
{
    let at = |i: usize| claim.get(i).copied().unwrap_or(0);
    Evidence {
        state: at(0),
        letter: at(1),
        low: at(2),
        high: at(3),
        stem: at(4),
        cycle: at(5),
    }
}

// The check of a claim: 1 for yes, 0 for no.
pub fn check(plan: &[u8], party: u32, claim: &[u32], letters: &[u8]) -> u32
    ensures { PassesCheck (asked plan.now party) claim.now letters.now result }
{
    match claim::check(plan, party, claim_of(claim), letters) {
        Ok(yes) => u32::from(yes),
        Err(r) => refused(r),
    }
}

// Writing a plan in the form to file: how many bytes.
pub fn write(plan: &[u8], out: &mut [u8]) -> u32
    ensures { PassesWriting plan.now result out.old out.new }
{
    match filing::write(plan, out) {
        Ok(bytes) => bytes as u32,
        Err(r) => refused(r),
    }
}

// The need of each critical set: how many numbers.
pub fn needs(plan: &[u8], party: u32, needs: &mut [u16]) -> u32
    ensures { PassesNeeds (asked plan.now party) result needs.old needs.new }
{
    match needs::of_plan(plan, party, needs) {
        Ok(entries) => entries as u32,
        Err(r) => refused(r),
    }
}

// The page of the needs: 0; further how many bytes.
pub fn page(plan: &[u8], party: u32, page: &mut [u8], length: &mut [u64]) -> u32
    ensures { PassesPage (asked plan.now party) result page.old page.new length.old
        length.new }
{
    if length.is_empty() {
        return refused(no_room(plan, party));
    }
    match pages::of_plan(plan, party, page) {
        Ok(bytes) => {
            length[0] = bytes as u64;
            0
        }
        Err(r) => refused(r),
    }
}

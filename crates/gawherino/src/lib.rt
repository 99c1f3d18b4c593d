// The archive for C: every call by its name in include/gawherino.h, as the crates of calls have them.
#![tactic(auto)]

ghost use Rattle.std.specs.Prelude.{◌≡◌};
ghost use Rattle.refusals.specs.Groups.{group_of};
ghost use Rattle.plan.specs.Bytes.{asked};
ghost use Rattle.prepare.specs.Preparing.{Draws};
ghost use Rattle.numbers.specs.Numbers.{group_number};
ghost use Rattle.plan_calls.specs.Promises.{PassesReading, PassesPrepared, PassesCount, PassesCheck, PassesWriting, PassesNeeds};
ghost use Rattle.plan_calls.specs.Promises.{PassesPage};
ghost use Rattle.table_calls.specs.Promises.{PassesStep, PassesWalk, PassesVerdict};
ghost use Rattle.record_calls.specs.Promises.{PassesOpening, PassesLetter, PassesEnding};

// CALLS ON A PLAN

// Reading: n; further m, p and e.
#[unsafe(no_mangle)]
pub extern "C" fn gawherino_read(plan: &[u8], counts: &mut [u32]) -> u32
    ensures { PassesReading plan.now result counts.old counts.new }
{
    plan_calls::read(plan, counts)
}

// Preparing: k; further, under 15, the six numbers of the evidence.
#[unsafe(no_mangle)]
pub extern "C" fn gawherino_prepare(
    plan: &[u8],
    party: u32,
    table: &mut [u64],
    letters: &mut [u8],
    evidence: &mut [u32],
) -> u32
    ensures { PassesPrepared (asked plan.now party) result table.old table.new letters.old
        letters.new evidence.old evidence.new }
{
    plan_calls::prepare(plan, party, table, letters, evidence)
}

// The count call, which answers as preparing does.
#[unsafe(no_mangle)]
pub extern "C" fn gawherino_look_ahead(
    plan: &[u8],
    party: u32,
    letters: &mut [u8],
    evidence: &mut [u32],
) -> u32
    ensures { PassesCount (asked plan.now party) result letters.old letters.new evidence.old
        evidence.new }
{
    plan_calls::look_ahead(plan, party, letters, evidence)
}

// The drawing program's entry: the look-ahead for party 0, or the refusal, with no lent buffer.
#[unsafe(no_mangle)]
pub extern "C" fn gawherino_count(plan: &[u8]) -> u32
    ensures { Draws (asked plan.now 0) result }
{
    plan_calls::count(plan)
}

// The check of a claim: 1 for yes, 0 for no.
#[unsafe(no_mangle)]
pub extern "C" fn gawherino_check(plan: &[u8], party: u32, claim: &[u32], letters: &[u8]) -> u32
    ensures { PassesCheck (asked plan.now party) claim.now letters.now result }
{
    plan_calls::check(plan, party, claim, letters)
}

// Writing a plan in the form to file: how many bytes.
#[unsafe(no_mangle)]
pub extern "C" fn gawherino_write(plan: &[u8], out: &mut [u8]) -> u32
    ensures { PassesWriting plan.now result out.old out.new }
{
    plan_calls::write(plan, out)
}

// The need of each critical set: how many numbers.
#[unsafe(no_mangle)]
pub extern "C" fn gawherino_needs(plan: &[u8], party: u32, needs: &mut [u16]) -> u32
    ensures { PassesNeeds (asked plan.now party) result needs.old needs.new }
{
    plan_calls::needs(plan, party, needs)
}

// The page of the needs: 0; further how many bytes.
#[unsafe(no_mangle)]
pub extern "C" fn gawherino_page(
    plan: &[u8],
    party: u32,
    page: &mut [u8],
    length: &mut [u64],
) -> u32
    ensures { PassesPage (asked plan.now party) result page.old page.new length.old
        length.new }
{
    plan_calls::page(plan, party, page, length)
}

// CALLS ON A TABLE

// One step: its rounds; further the set that it led to.
#[unsafe(no_mangle)]
pub extern "C" fn gawherino_step(table: &[u64], set: u64, letter: u32, next: &mut [u64]) -> u32
    ensures { PassesStep table.now set letter result next.old next.new }
{
    table_calls::step(table, set, letter, next)
}

// A whole walk: 0; further g.
#[unsafe(no_mangle)]
pub extern "C" fn gawherino_walk(
    table: &[u64],
    word: &[u8],
    sets: &mut [u64],
    length: &mut [u64],
) -> u32
    ensures { PassesWalk table.now word.now result sets.old sets.new length.old
        length.new }
{
    table_calls::walk(table, word, sets, length)
}

// The verdict on a word: 1 for a minimal selector, else 0; further both sets.
#[unsafe(no_mangle)]
pub extern "C" fn gawherino_judge(
    table: &[u64],
    state: u32,
    letter: u32,
    word: &[u8],
    sets: &mut [u64],
) -> u32
    ensures { PassesVerdict table.now state letter word.now result sets.old sets.new }
{
    table_calls::judge(table, state, letter, word, sets)
}

// CALLS ON A WALK'S RECORD

// Opening: the resolved state, or 255; further its position.
#[unsafe(no_mangle)]
pub extern "C" fn gawherino_open(table: &[u64], rec: &mut [u8], position: &mut [u32]) -> u32
    ensures { PassesOpening table.now result rec.old rec.new position.old
        position.new }
{
    record_calls::open(table, rec, position)
}

// A letter fed, which answers as opening does.
#[unsafe(no_mangle)]
pub extern "C" fn gawherino_feed(
    table: &[u64],
    rec: &mut [u8],
    letter: u32,
    position: &mut [u32],
) -> u32
    ensures { PassesLetter table.now letter result rec.old rec.new position.old
        position.new }
{
    record_calls::feed(table, rec, letter, position)
}

// Ending: how many positions are not resolved.
#[unsafe(no_mangle)]
pub extern "C" fn gawherino_finish(table: &[u64], rec: &[u8], sets: &mut [u64]) -> u32
    ensures { PassesEnding table.now rec.now result sets.old sets.new }
{
    record_calls::finish(table, rec, sets)
}

// REFUSALS

// Who can cause a refusal: 1 for the author, 2 for the caller, 3 for the logger; 0 where the number is no refusal's.
#[unsafe(no_mangle)]
pub extern "C" fn gawherino_group(refusal: u32) -> u32
    ensures { result ≡ group_number (group_of refusal) }
{
    numbers::group(refusal)
}

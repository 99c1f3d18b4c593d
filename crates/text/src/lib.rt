// The report as bytes (document 01, The report), a part at a time: `begin` prints the first lines of a plan, `feed` those of some letters,
// `finish` the open lines. They work in lent buffers of fixed size, so an input of any length can be streamed through them.
#![tactic(auto)]

ghost use Rattle.std.specs.Prelude.{◌≡◌, false, ◌+◌, ◌*◌, ◌^◌, ◌≤◌, ◌++◌, Ok, is_err, length};
ghost use Rattle.semiautomata.specs.Predictability.{Lookahead};
ghost use Rattle.plan.specs.Bytes.{meaning, WellFormed};
ghost use Rattle.table.specs.Table.{lookahead_of, table_meaning, unfit};
ghost use Rattle.deciding.specs.Replies.{said, is_refusal};
ghost use Rattle.predictor.specs.Calls.{opened_on};
ghost use Rattle.slices.specs.Filling.{Puts};
ghost use Rattle.text.specs.Report.{input_letters, reply_text, open_lines, AfterLookahead, AfterCounts};
ghost use Rattle.text.specs.Calls.{most_sets, table_size, record_size, begin_width, letter_width, open_width, open_on, walk_on};
ghost use Rattle.text.specs.Calls.{FeedsPart, Finishes, Leaves, LeavesOf, ReportText, Begins, printed_of};
ghost use Rattle.text.specs.inner.Parts.{Lays, Feeding};

use deciding::Resolution;
use prepare::Unprepared;
use refusals::Refusal;
use slices::Filling;

// Bytes of a record; and bytes that the first lines, the line of a letter and all open lines take at the most.
pub const RECORD_SIZE: usize = records::HELD_FROM + semiautomata::MAX_LOOKAHEAD;

const BEGIN_WIDTH: usize = 106;

pub const LETTER_WIDTH: usize = 24;

pub const OPEN_LINES: usize = 225 * semiautomata::MAX_LOOKAHEAD;

// What a call printed: so many bytes, and the report goes on, or they end it (a walk, but for its open lines).
#[derive(Drop)]
pub enum Printed {
    Going(usize),
    Ended(usize),
}

// ANSWERS: a refusal ends what is printed, and its line is put last.

// The line of a resolved position, if one was resolved.
#[tactic(auto, using(slices::proofs::Putting::filling, lines::proofs::Widths::widths))]
fn resolution(out: &mut Filling, resolved: Option<Resolution>)
    requires { out.old.at + letter_width ≤ length out.old.out.now }
    ensures { Puts out.old (reply_text (said (Ok resolved))) out.new × (out.new.at ≤ out.old.at + letter_width) }
{
    match resolved {
        Some(resolution) => lines::resolution(out, resolution.position, resolution.state),
        None => {}
    }
}

// THE FIRST LINES

// What is printed of opening a record on a table.
fn opened(table: &[u64], rec: &mut [u8], out: &mut Filling) -> Result<(), Refusal>
    requires { (unfit table.now ≡ false) × Lookahead (table_meaning table.now) (lookahead_of table.now)
        × (record_size ≤ length rec.old) × (out.old.at + letter_width ≤ length out.old.out.now) }
    ensures { Lays (AfterLookahead (table_meaning table.now) (lookahead_of table.now)) out.old result
        out.new (walk_on table.now rec.new)
        × (rec.new ≡ (opened_on table.now rec.old).state)
        × (is_refusal (opened_on table.now rec.old).reply ≡ is_err result) }
{
    let resolved = predictor::open(table, rec)?;
    resolution(out, resolved);
    Ok(())
}

// Of a well-formed plan, the lines from the second on: line 2 takes 32 bytes at the most, opening's 24. With buffers of these sizes
// preparing refuses no such plan.
fn prepared(
    plan: &[u8],
    table: &mut [u64],
    rec: &mut [u8],
    out: &mut Filling,
) -> Result<(), Refusal>
    requires { WellFormed plan.now × (table_size ≤ length table.old) × (record_size ≤ length rec.old)
        × (out.old.at + 56 ≤ length out.old.out.now) }
    ensures { Lays (AfterCounts (meaning plan.now 0)) out.old result out.new (walk_on table.new rec.new)
        × Leaves (meaning plan.now 0) table.old rec.old (is_err result) table.new rec.new }
{
    let mut letters = [0u8; semiautomata::MAX_EVIDENCE];
    match prepare::prepare(plan, 0, table, &mut letters) {
        Ok(k) => {
            lines::lookahead(out, k);
            opened(table, rec, out)
        }
        Err(Unprepared::Refused(refusal)) => Err(refusal),
        Err(Unprepared::Unpredictable(_)) => Err(Refusal::Unpredictable),
    }
}

// The first lines of an input.
fn begun(input: &[u8], table: &mut [u64], rec: &mut [u8], out: &mut Filling) -> Result<(), Refusal>
    requires { (table_size ≤ length table.old) × (record_size ≤ length rec.old)
        × (out.old.at + begin_width ≤ length out.old.out.now) }
    ensures { Lays (ReportText input.now) out.old result out.new
        (λ rest. walk_on table.new rec.new (input_letters input.now ++ rest))
        × LeavesOf input.now table.old rec.old (is_err result) table.new rec.new }
{
    if inputs::no_plan(input) {
        return Err(Refusal::Size);
    }
    let plan = &input[..inputs::total(input)];
    let counts = plan::read(plan)?;
    lines::counts(out, counts.n, counts.m, counts.p, counts.e);
    prepared(plan, table, rec, out)
}

// The first lines of an input: of its plan, and of opening a walk on it. None: too little is lent.
pub fn begin(input: &[u8], table: &mut [u64], rec: &mut [u8], out: &mut [u8]) -> Option<Printed>
    ensures { Begins input.now table.old rec.old result table.new rec.new
        out.old out.new }
{
    if table.len() < table::MAX_TABLE || rec.len() < RECORD_SIZE || out.len() < BEGIN_WIDTH {
        return None;
    }
    let mut filling = Filling { out, at: 0 };
    match begun(input, table, rec, &mut filling) {
        Ok(()) => Some(Printed::Going(filling.at)),
        Err(refusal) => {
            lines::refused(&mut filling, refusal.number());
            Some(Printed::Ended(filling.at))
        }
    }
}

// LETTERS

// Letters are fed to a record, and their lines printed, up to a refusal.
fn fed(table: &[u64], rec: &mut [u8], letters: &[u8], out: &mut Filling) -> Result<(), Refusal>
    requires { out.old.at + letter_width * length letters.now ≤ length out.old.out.now }
    ensures { Feeding table.now rec.old letters.now out.old result out.new rec.new }
{
    for letter in letters {
        let resolved = predictor::feed(table, rec, *letter as u32)?;
        resolution(out, resolved);
    }
    Ok(())
}

// .. and the line of the refusal. None: too few bytes are lent.
pub fn feed(table: &[u64], rec: &mut [u8], letters: &[u8], out: &mut [u8]) -> Option<Printed>
    ensures { FeedsPart table.now rec.old letters.now result rec.new
        out.old out.new × (printed_of result ≤ letter_width * length letters.now) }
{
    if out.len() / LETTER_WIDTH < letters.len() {
        return None;
    }
    let mut filling = Filling { out, at: 0 };
    match fed(table, rec, letters, &mut filling) {
        Ok(()) => Some(Printed::Going(filling.at)),
        Err(refusal) => {
            lines::refused(&mut filling, refusal.number());
            Some(Printed::Ended(filling.at)) // letters behind it are not fed
        }
    }
}

// THE OPEN LINES

// The lines of positions one after the other, from `first` on.
fn open_lines(out: &mut Filling, first: usize, sets: &[u64])
    requires { (out.old.at + open_width * length sets.now ≤ length out.old.out.now) × (first ≤ 2 ^ 32)
        × (length sets.now ≤ most_sets) }
    ensures { Puts out.old (open_lines first sets.now) out.new }
{
    for (i, set) in sets.iter().enumerate() {
        lines::open_line(out, first + i, *set);
    }
}

// The open lines of a record; the letters that it has taken are the last position.
fn ending(table: &[u64], rec: &[u8], out: &mut Filling)
    requires { out.old.at + open_width * most_sets ≤ length out.old.out.now }
    ensures { Puts out.old (open_on table.now rec.now) out.new }
{
    let mut sets = [0u64; semiautomata::MAX_LOOKAHEAD];
    match predictor::finish(table, rec, &mut sets) {
        Ok(count) => {
            let first = (records::fed_of(rec) + 1).saturating_sub(count);
            open_lines(out, first, &sets[..count]);
        }
        Err(refusal) => lines::refused(out, refusal.number()),
    }
}

// .. as all that is printed. None: too few bytes are lent.
pub fn finish(table: &[u64], rec: &[u8], out: &mut [u8]) -> Option<usize>
    ensures { Finishes table.now rec.now result out.old out.new }
{
    if out.len() < OPEN_LINES {
        return None;
    }
    let mut filling = Filling { out, at: 0 };
    ending(table, rec, &mut filling);
    Some(filling.at)
}

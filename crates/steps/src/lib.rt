// Which call comes next: a report from its first byte to its last as steps, each on the bytes that were just read.
#![tactic(auto)]

ghost use Rattle.std.specs.Prelude.{◌≡◌, ◌+◌, ◌*◌, ◌≤◌, ◌<◌, length};
ghost use Rattle.slices.specs.Appending.{Appended};
ghost use Rattle.text.specs.Calls.{most_sets, open_width, open_on};
ghost use Rattle.steps.specs.declared.Stage.TheVariants.{Plan, Letters};
ghost use Rattle.steps.specs.Steps.{read_from, read_upto, Readable, Steps};

use text::Printed;

// So many letters are read at once, at the most; and the bytes that their lines and the open lines may take.
const LETTERS: usize = 4096;

pub const OUT_SIZE: usize = LETTERS * text::LETTER_WIDTH + text::OPEN_LINES;

// Where a report stands: its plan is read up to a place, its letters are, or it is over. Not a type for each stage: the program keeps one
// value between its reads, and a read at any stage does the same.
#[derive(Clone, Copy)]
pub enum Stage {
    Plan { from: usize, upto: usize },
    Letters,
    Over,
}

// What a step answers: so many bytes are to be written, and where the report stands then.
#[derive(Clone, Copy)]
pub struct Next {
    pub count: usize,
    pub stage: Stage,
}

// Nothing is written, and nothing follows.
const NOTHING: Next = Next {
    count: 0,
    stage: Stage::Over,
};

pub fn first() -> Stage
    ensures { result ≡ Plan 0 16 }
{
    Stage::Plan { from: 0, upto: 16 }
}

// The place from which on the buffer is filled by the next read, and the place up to which.
pub fn from(stage: Stage) -> usize
    ensures { result ≡ read_from stage }
{
    match stage {
        Stage::Plan { from, upto: _ } => from,
        Stage::Letters => 0,
        Stage::Over => 0,
    }
}

pub fn upto(stage: Stage) -> usize
    ensures { result ≡ read_upto stage }
{
    match stage {
        Stage::Plan { from: _, upto } => upto,
        Stage::Letters => LETTERS,
        Stage::Over => 0,
    }
}

// The open lines, from a place of the buffer on: how many bytes of it are written then.
fn finish_at(table: &[u64], rec: &[u8], out: &mut [u8], at: usize) -> usize
    requires { at + open_width * most_sets ≤ length out.old }
    ensures { Appended out.old at (open_on table.now rec.now) result out.new }
{
    at + text::finish(table, rec, &mut out[at..]).unwrap_or(0) // enough is lent: never None
}

// The plan is read: on, or it is all there, or the input is at its end.
fn step_plan(
    from: usize,
    upto: usize,
    input: &[u8],
    table: &mut [u64; table::MAX_TABLE],
    rec: &mut [u8; text::RECORD_SIZE],
    out: &mut [u8; OUT_SIZE],
) -> Next
    ensures { Steps input.now table.old rec.old out.old
        (Plan from upto) result.count result.stage table.new rec.new out.new × Readable result.stage }
{
    let end = inputs::wanted(input);
    if from < input.len() && input.len() < end {
        let stage = Stage::Plan {
            from: input.len(),
            upto: end,
        };
        return Next { count: 0, stage };
    }
    match text::begin(input, table, rec, out) {
        Some(Printed::Going(count)) => Next {
            count,
            stage: Stage::Letters, // the letters are read next
        },
        Some(Printed::Ended(count)) => Next {
            count,
            stage: Stage::Over,
        },
        None => NOTHING, // enough is lent
    }
}

// Letters are fed, or the input is at its end.
fn step_letters(
    input: &[u8],
    table: &[u64; table::MAX_TABLE],
    rec: &mut [u8; text::RECORD_SIZE],
    out: &mut [u8; OUT_SIZE],
) -> Next
    requires { length input.now ≤ 4096 }
    ensures { Steps input.now table.now rec.old out.old
        Letters result.count result.stage table.now rec.new out.new × Readable result.stage }
{
    if input.is_empty() {
        return Next {
            count: finish_at(table, rec, out, 0),
            stage: Stage::Over, // nothing follows the open lines
        };
    }
    match text::feed(table, rec, input, out) {
        Some(Printed::Going(count)) => Next {
            count,
            stage: Stage::Letters,
        },
        Some(Printed::Ended(at)) => Next {
            count: finish_at(table, rec, out, at),
            stage: Stage::Over, // letters behind a refusal are not read
        },
        None => NOTHING, // enough is lent
    }
}

// One step, on the front of the buffer: the bytes that are kept of it and those that were just read.
pub fn step(
    stage: Stage,
    input: &[u8],
    table: &mut [u64; table::MAX_TABLE],
    rec: &mut [u8; text::RECORD_SIZE],
    out: &mut [u8; OUT_SIZE],
) -> Next
    requires { length input.now ≤ read_upto stage }
    ensures { Steps input.now table.old rec.old out.old
        stage result.count result.stage table.new rec.new out.new × Readable result.stage }
{
    match stage {
        Stage::Plan { from, upto } => step_plan(from, upto, input, table, rec, out),
        Stage::Letters => step_letters(input, table, rec, out),
        Stage::Over => NOTHING,
    }
}

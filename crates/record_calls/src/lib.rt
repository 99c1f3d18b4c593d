// The calls on a walk's record for C, over plain numbers and lent slices: opening, a letter fed and ending. Where there is no room for the
// position of a resolution, the call is refused with 9 before anything is written.
#![tactic(auto)]

ghost use Rattle.std.specs.Prelude.{◌≤◌, length};
ghost use Rattle.numbers.specs.Numbers.{Passed};
ghost use Rattle.record_calls.specs.Promises.{of_answer, PassesOpening, PassesLetter, PassesEnding};

use deciding::Answer;
use numbers::refused;

// Room for the position of a resolution.
const POSITION: usize = 1;

// What opening and a letter fed answer, in numbers.
fn pass_answer(answer: Answer, position: &mut [u32]) -> u32
    requires { 1 ≤ length position.old }
    ensures { Passed (of_answer answer) result position.old position.new }
{
    match answer {
        Ok(Some(resolution)) => {
            position[0] = resolution.position;
            u32::from(resolution.state)
        }
        Ok(None) => 255,
        Err(r) => refused(r),
    }
}

// Opening: the resolved state, or 255; further its position.
pub fn open(table: &[u64], rec: &mut [u8], position: &mut [u32]) -> u32
    ensures { PassesOpening table.now result rec.old rec.new position.old
        position.new }
{
    if position.len() < POSITION {
        return refused(table_calls::no_room(table));
    }
    pass_answer(predictor::open(table, rec), position)
}

// A letter fed, which answers as opening does.
pub fn feed(table: &[u64], rec: &mut [u8], letter: u32, position: &mut [u32]) -> u32
    ensures { PassesLetter table.now letter result rec.old rec.new position.old
        position.new }
{
    if position.len() < POSITION {
        return refused(table_calls::no_room(table));
    }
    pass_answer(predictor::feed(table, rec, letter), position)
}

// Ending: how many positions are not resolved.
pub fn finish(table: &[u64], rec: &[u8], sets: &mut [u64]) -> u32
    ensures { PassesEnding table.now rec.now result sets.old sets.new }
{
    match predictor::finish(table, rec, sets) {
        Ok(count) => count as u32,
        Err(r) => refused(r),
    }
}

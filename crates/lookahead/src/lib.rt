// The look-ahead of a semiautomaton by its successor sets, or the witness that there is none; never from plan bytes.
// Which pairs of states are rivals is worked out here, which pairs share words in crate pairs: the first number of letters with which no
// rivals do is the look-ahead.
#![tactic(auto)]

pub mod rivals; // rivals.rt: the rows of rivals, and the states that some walk reaches
mod witness; // witness.rt: the critical set and the lasso of two states that share words of every length

ghost use Rattle.std.specs.Prelude.{◌*◌, ◌≤◌, length};
ghost use Rattle.semiautomata.specs.Means.{means};
ghost use Rattle.lookahead.specs.Answers.{Answers};

use semiautomata::successors::Successors;

// The evidence that there is no look-ahead: the critical set by a state and a letter (255 and 0 for the initial states), two states of
// it, the lower first, and how many letters lead in and how many go round.
#[derive(Clone, Copy)]
pub struct Evidence {
    pub state: u32,
    pub letter: u32,
    pub low: u32,
    pub high: u32,
    pub stem: u32,
    pub cycle: u32,
}

// The look-ahead, or the evidence that there is none, with its letters from the buffer's front.
pub fn look_ahead(succ: &Successors, letters: &mut [u8]) -> Result<usize, Evidence>
    requires { succ.now.n * succ.now.n ≤ length letters.old }
    ensures { Answers (means succ.now) result letters.old letters.new }
{
    let mut rival = [0u64; 64];
    let reached = rivals::rivals(&mut rival, succ);
    // no lifetimes are asked for
    match pairs::settle(&mut [], succ, &rival) {
        Ok(rounds) => Ok(rounds),
        Err(endless) => Err(witness::evidence(succ, reached, &endless, letters)),
    }
}

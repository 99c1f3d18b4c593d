// Predictable semiautomata (Brzozowski and Santean, CS-2007-03) as documents 01 and 003 speak of them: definitions and theorems.
// specs/ is what a reader must believe, in the order of specs/Lib.antt; specs/Theorems.antt says what is proved of it.
// Here are the greatest sizes of a plan and of what is made of it, and the one form in which code has a semiautomaton.
#![tactic(auto)]

pub mod successors; // successors.rt: a semiautomaton by its successor sets

pub const MAX_STATES: usize = 64;

pub const MAX_LETTERS: usize = 32;

pub const MAX_LINES: usize = 4096;

// A set for each state and letter.
pub const MAX_SETS: usize = MAX_STATES * MAX_LETTERS;

pub const MAX_LOOKAHEAD: usize = MAX_STATES * (MAX_STATES - 1) / 2;

// The letters of evidence: no more than pairs of states.
pub const MAX_EVIDENCE: usize = MAX_STATES * MAX_STATES;

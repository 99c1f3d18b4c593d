// Refusals: their numbers, and who can cause which. Their order in each call is a list of checks (specs/Checks).
#![tactic(auto)]

ghost use Rattle.std.specs.Prelude.{◌≡◌};
ghost use Rattle.refusals.specs.Groups.{group_of};
ghost use Rattle.refusals.specs.Named.{number_of};

// What a call is refused for, with the documents' numbers.
#[derive(Clone, Copy, Debug, PartialEq, Eq)]
pub enum Refusal {
    Size = 1,
    Edition,
    Counts,
    Parts,
    Start,
    Line,
    Twice,
    Table,
    Room,
    Record,
    Limit,
    Letter,
    Nowhere,
    Undecided,
    Unpredictable,
    Party,
}

impl Refusal {
    #[inline(always)]
    pub fn number(self) -> u8
        ensures { result ≡ number_of self }
    {
        self as u8
    }
}

// The plan's author, the caller or the logger.
#[derive(Clone, Copy, Debug, PartialEq, Eq)]
pub enum Group {
    Author,
    Caller,
    Logger,
}

// Who can cause the refusal of a number; nobody where it is no refusal's.
pub fn group_of(number: u8) -> Option<Group>
    ensures { result ≡ group_of number }
{
    match number {
        1..=7 | 15 | 16 => Some(Group::Author),
        8..=10 | 14 => Some(Group::Caller),
        11..=13 => Some(Group::Logger),
        _ => None,
    }
}

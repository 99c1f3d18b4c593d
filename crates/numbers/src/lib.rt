// What every call for C answers: one number, a value below 65,536 or 65,536 plus the refusal; further values go to the front of a lent
// slice. And the one call on numbers alone, the group of a refusal.
#![tactic(auto)]

ghost use Rattle.std.specs.Prelude.{◌≡◌};
ghost use Rattle.refusals.specs.Groups.{group_of};
ghost use Rattle.refusals.specs.Named.{number_of};
ghost use Rattle.refusals.specs.Outcomes.{refusing};
ghost use Rattle.numbers.specs.Numbers.{group_number};

use refusals::{Group, Refusal};

// No value is so great.
const PAST_VALUES: u32 = 65536;

// A refusal is answered as that number plus its own. C has no Result: each call matches on one, and ends here where `?` would hand it on.
#[inline(always)]
pub fn refused(r: Refusal) -> u32
    ensures { result ≡ refusing (number_of r) }
{
    PAST_VALUES + u32::from(r.number())
}

// Who can cause a refusal: 1 for the author, 2 for the caller, 3 for the logger; 0 where the number is no refusal's.
pub fn group(refusal: u32) -> u32
    ensures { result ≡ group_number (group_of refusal) }
{
    let Ok(number) = u8::try_from(refusal) else {
        return 0;
    };
    match refusals::group_of(number) {
        Some(Group::Author) => 1,
        Some(Group::Caller) => 2,
        Some(Group::Logger) => 3,
        None => 0,
    }
}

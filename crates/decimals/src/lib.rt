// Numbers as decimal digits, right-aligned: the one writer of numbers, for the report's lines and for the page's.
#![tactic(auto)]

ghost use Rattle.std.specs.Prelude.{◌≤◌, length};
ghost use Rattle.decimals.specs.Decimals.{decimal, RightAligned};

// The digits of a number, at the right of the columns lent for it; those in front are kept. The answer is the place of the first digit.
pub fn right(columns: &mut [u8], x: u64) -> usize
    requires { length (decimal x) ≤ length columns.old }
    ensures { RightAligned columns.old x result columns.new }
{
    // a loop, since how many digits there are shows only as they are put
    let mut first = columns.len();
    let mut rest = x;
    loop {
        first -= 1;
        columns[first] = 48 + (rest % 10) as u8;
        rest /= 10;
        if rest == 0 {
            return first;
        }
    }
}

// Sets of states as 64-bit numbers: state s is a member where bit s is 1.
// Union, intersection and the least member are the operators |, & and u64::trailing_zeros, whose laws are in proofs/.
// Here are the three that need care with numbers of 64 and more, which no set contains.
#![tactic(auto)]

ghost use Rattle.std.specs.Prelude.{◌≡◌, ltb};
ghost use Rattle.bitset.specs.Sets.{single};
ghost use Rattle.bitset.specs.Numbers.{has, set_of};

// All states below n; all 64 where n is 64 or more.
pub fn mask(n: u32) -> u64
    ensures { result ≡ set_of 64 (λ t. ltb t n) }
{
    if n >= 64 {
        0xffff_ffff_ffff_ffff
    } else {
        (1 << n) - 1
    }
}

// Whether s is a member; a state of 64 or more never is.
pub fn contains(set: u64, s: u32) -> bool
    ensures { result ≡ has set s }
{
    s < 64 && (set >> s) & 1 == 1
}

// The set of s alone; empty where s is 64 or more.
pub fn singleton(s: u32) -> u64
    ensures { result ≡ set_of 64 (single s) }
{
    if s < 64 { 1 << s } else { 0 }
}

// The members of a set, ascending: the least is taken and struck out, until none is left.
#[derive(Drop)]
pub struct Members {
    pub rest: u64,
}

impl Members {
    #[inline(always)]
    pub fn of(set: u64) -> Members
        ensures { result.rest ≡ set }
    {
        Members { rest: set }
    }
}

impl Iterator for Members {
    ghost use Rattle.std.specs.Iterator.{at_most};
    ghost use Rattle.bitset.specs.Members.{Takes};

    type Item = usize;

    ghost next_gives = { Takes };

    ghost remaining = { λ s. at_most s.rest };

    #[inline(always)]
    fn next(&mut self) -> Option<usize> {
        if self.rest == 0 {
            return None;
        }
        let least = u64::trailing_zeros(self.rest) as usize;
        self.rest &= self.rest - 1;
        Some(least)
    }
}

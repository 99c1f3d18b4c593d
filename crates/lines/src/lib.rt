// The report's lines, each put into a lent buffer behind what it is filled with.
#![tactic(auto)]

ghost use Rattle.std.specs.Prelude.{[]};
ghost use Rattle.bitset.specs.Numbers.{has};
ghost use Rattle.slices.specs.Filling.{HasRoom, Puts};
ghost use Rattle.decimals.specs.Decimals.{decimal};
ghost use Rattle.lines.specs.Lines.{field as Lines·field, space, group_word, counts_line, lookahead_line, refused_line};
ghost use Rattle.lines.specs.Lines.{resolution_line, listed, open_line};

use bitset::Members;
use refusals::Group;
use slices::Filling;

fn number(out: &mut Filling, x: u64)
    requires { HasRoom out.old (decimal x) }
    ensures { Puts out.old (decimal x) out.new }
{
    let mut columns = [b' '; 20];
    let first = decimals::right(&mut columns, x);
    out.put(&columns[first..]);
}

// A word and its number.
#[tactic(auto, using(slices::proofs::Putting::filling), unfolding(crate::specs::Lines::field))]
fn field(out: &mut Filling, word: &[u8], x: u64)
    requires { HasRoom out.old (Lines·field word.now x) }
    ensures { Puts out.old (Lines·field word.now x) out.new }
{
    out.put(word);
    number(out, x);
}

#[tactic(auto, using(slices::proofs::Putting::filling), unfolding(crate::specs::Lines::counts_line))]
pub fn counts(out: &mut Filling, n: u16, m: u16, p: u16, e: u16)
    requires { HasRoom out.old (counts_line n m p e) }
    ensures { Puts out.old (counts_line n m p e) out.new }
{
    field(out, b"stakes ", n as u64);
    field(out, b" codes ", m as u64);
    field(out, b" starts ", p as u64);
    field(out, b" lines ", e as u64);
    out.put(b"\n");
}

#[tactic(auto, using(slices::proofs::Putting::filling), unfolding(crate::specs::Lines::lookahead_line))]
pub fn lookahead(out: &mut Filling, k: usize)
    requires { HasRoom out.old (lookahead_line k) }
    ensures { Puts out.old (lookahead_line k) out.new }
{
    field(out, b"look-ahead ", k as u64);
    out.put(b"\n");
}

#[tactic(auto, using(slices::proofs::Putting::filling))]
fn group(out: &mut Filling, who: Option<Group>)
    requires { HasRoom out.old (group_word who) }
    ensures { Puts out.old (group_word who) out.new }
{
    match who {
        Some(Group::Author) => out.put(b" author"),
        Some(Group::Caller) => out.put(b" caller"),
        Some(Group::Logger) => out.put(b" logger"),
        None => {}
    }
}

#[tactic(auto, using(slices::proofs::Putting::filling), unfolding(crate::specs::Lines::refused_line))]
pub fn refused(out: &mut Filling, number: u8)
    requires { HasRoom out.old (refused_line number) }
    ensures { Puts out.old (refused_line number) out.new }
{
    field(out, b"refused ", number as u64);
    group(out, refusals::group_of(number));
    out.put(b"\n");
}

#[tactic(auto, using(slices::proofs::Putting::filling), unfolding(crate::specs::Lines::resolution_line))]
pub fn resolution(out: &mut Filling, position: u32, state: u8)
    requires { HasRoom out.old (resolution_line position state) }
    ensures { Puts out.old (resolution_line position state) out.new }
{
    field(out, b"at ", position as u64);
    field(out, b" stake ", state as u64);
    out.put(b"\n");
}

// The members of a set, a space before each.
fn members(out: &mut Filling, set: u64)
    requires { HasRoom out.old (listed 64 (has set)) }
    ensures { Puts out.old (listed 64 (has set)) out.new }
{
    for s in Members::of(set) {
        field(out, b" ", s as u64);
    }
}

#[tactic(auto, using(slices::proofs::Putting::filling), unfolding(crate::specs::Lines::open_line))]
pub fn open_line(out: &mut Filling, position: usize, set: u64)
    requires { HasRoom out.old (open_line position set) }
    ensures { Puts out.old (open_line position set) out.new }
{
    field(out, b"open ", position as u64);
    out.put(b" stakes");
    members(out, set);
    out.put(b"\n");
}

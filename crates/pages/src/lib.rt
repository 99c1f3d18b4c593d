// The page for the hut wall (document 02, W-206): the needs of a plan's critical sets, a line to each that counts and is not empty.
#![tactic(auto)]

ghost use Rattle.std.specs.Prelude.{◌≡◌, [], ◌∷◌, ◌++◌, ◌+◌, ◌*◌, ◌≤◌, ◌<◌, length};
ghost use Rattle.slices.specs.Appending.{each};
ghost use Rattle.slices.specs.Filling.{HasRoom, Puts};
ghost use Rattle.decimals.specs.Decimals.{decimal, blanks, right, left};
ghost use Rattle.semiautomata.specs.Means.{means};
ghost use Rattle.semiautomata.specs.Predictability.{initial, fork};
ghost use Rattle.plan.specs.Bytes.{asked};
ghost use Rattle.pages.specs.Page.{need_text, longest_bar, bar, label, tail, page_line, line_of, shown_of, line_count};
ghost use Rattle.pages.specs.Paging.{PageOf};
ghost use Rattle.pages.specs.inner.Sets.{PageBy};
ghost use Rattle.pages.specs.inner.Rows.{states, row_shown};

use needs::UNMEASURED;
use pairs::lifetimes::ENDLESS;
use refusals::Refusal;
use semiautomata::successors::Successors;
use slices::Filling;

// The bytes of a line, its line feed among them, and of the largest page.
const LINE: usize = 41;

const MOST_NEEDS: usize = semiautomata::MAX_SETS + 1;

pub const MAX_PAGE: usize = LINE * MOST_NEEDS;

// The longest bar, of which each is a part: copied, not filled, which is faster.
const LONGEST_BAR: usize = 23;

const BAR: [u8; LONGEST_BAR] = [b'#'; LONGEST_BAR];

// A line whose columns are blank, and the initial states' own: the other columns are put into them from the right to the left.
const BLANK_LINE: [u8; LINE] = *b"                                        \n";

const STARTS_LINE: [u8; LINE] = *b"from                                    \n";

// The need, in six blank columns; a dash in the last of them where there is none.
fn fill_need(columns: &mut [u8], need: u16)
    requires { columns.old ≡ blanks 6 }
    ensures { columns.new ≡ right 6 (need_text need) }
{
    if need == ENDLESS {
        columns[5] = b'-';
    } else {
        decimals::right(columns, need as u64);
    }
}

// The bar of so many states, in 23 blank columns.
fn fill_bar(columns: &mut [u8], count: u32)
    requires { columns.old ≡ blanks longest_bar }
    ensures { columns.new ≡ left longest_bar (bar count) }
{
    let signs = LONGEST_BAR.min(count as usize);
    columns[..signs].copy_from_slice(&BAR[..signs]);
}

// The first nine columns of a fork set: its state and its letter.
fn fill_label(columns: &mut [u8], q: usize, a: usize)
    requires { (columns.old ≡ blanks 9) × (q < 64) × (a < 32) }
    ensures { columns.new ≡ label (decimal q) (decimal a) }
{
    decimals::right(&mut columns[5..9], a as u64);
    decimals::right(&mut columns[0..4], q as u64);
}

// A line from column 10 on: the need, and the bar of a set; the line feed is there.
fn fill_tail(columns: &mut [u8], need: u16, set: u64)
    requires { columns.old ≡ blanks 31 ++ (10 ∷ []) }
    ensures { columns.new ≡ tail need (states set) }
{
    fill_bar(&mut columns[8..31], u64::count_ones(set));
    fill_need(&mut columns[1..7], need);
}

// The line of the initial states.
fn fill_starts(line: &mut [u8], need: u16, set: u64)
    requires { length line.old ≡ page_line }
    ensures { line.new ≡ line_of initial need (states set) }
{
    line.copy_from_slice(&STARTS_LINE);
    fill_tail(&mut line[9..], need, set);
}

// The line of a fork set.
fn fill_fork(line: &mut [u8], q: usize, a: usize, need: u16, set: u64)
    requires { (length line.old ≡ page_line) × (q < 64) × (a < 32) }
    ensures { line.new ≡ line_of (fork q a) need (states set) }
{
    line.copy_from_slice(&BLANK_LINE);
    fill_tail(&mut line[9..], need, set);
    fill_label(&mut line[..9], q, a);
}

// Lines are filled where they stand: where each was filled in an array of its own and then put, a page took a fifth longer.

// The line of the initial states, if they have one.
fn put_starts(out: &mut Filling, need: u16, set: u64)
    requires { HasRoom out.old (shown_of initial need (states set)) }
    ensures { Puts out.old (shown_of initial need (states set)) out.new }
{
    if need == UNMEASURED {
        return;
    }
    fill_starts(&mut out.out[out.at..out.at + LINE], need, set);
    out.at += LINE;
}

// The line of a fork set, if it has one.
fn put_fork(out: &mut Filling, q: usize, a: usize, need: u16, set: u64)
    requires { (q < 64) × (a < 32) × HasRoom out.old (shown_of (fork q a) need (states set)) }
    ensures { Puts out.old (shown_of (fork q a) need (states set)) out.new }
{
    if need == UNMEASURED { // no line
        return;
    }
    fill_fork(&mut out.out[out.at..out.at + LINE], q, a, need, set);
    out.at += LINE;
}

// The lines of a state's fork sets.
fn put_row(out: &mut Filling, needs: &[u16], succ: &Successors, q: usize)
    requires { (q < succ.now.n) × (succ.now.n * succ.now.m < length needs.now)
        × HasRoom out.old (row_shown succ.now.m needs.now succ.now.sets.now q) }
    ensures { Puts out.old (row_shown succ.now.m needs.now succ.now.sets.now q) out.new }
{
    for a in 0..succ.m {
        put_fork(out, q, a, needs[q * succ.m + a + 1], succ.of(q, a));
    }
}

// .. of all states.
fn put_forks(out: &mut Filling, needs: &[u16], succ: &Successors)
    requires { (succ.now.n * succ.now.m < length needs.now)
        × HasRoom out.old (each succ.now.n (row_shown succ.now.m needs.now succ.now.sets.now)) }
    ensures { Puts out.old (each succ.now.n (row_shown succ.now.m needs.now succ.now.sets.now)) out.new }
{
    for q in 0..succ.n {
        put_row(out, needs, succ, q);
    }
}

// How many numbers have a line.
fn count_lines(needs: &[u16]) -> usize
    ensures { (result ≡ line_count needs.now) × (result ≤ length needs.now) }
{
    needs.iter().filter(|need| **need != UNMEASURED).count()
}

// The page of successor sets, into bytes that keep their rest; 9 where there are too few.
fn of_sets(page: &mut [u8], succ: &Successors) -> Result<usize, Refusal>
    ensures { PageBy (means succ.now) result page.old page.new }
{
    let count = succ.n * succ.m + 1;
    let mut room = [0u16; MOST_NEEDS];
    needs::enter(&mut room, succ);
    let needs = &room[..count];
    if page.len() < LINE * count_lines(needs) {
        return Err(Refusal::Room);
    }
    let mut out = Filling { out: page, at: 0 };
    put_starts(&mut out, needs[0], succ.starts);
    put_forks(&mut out, needs, succ);
    Ok(out.at)
}

// The page of a plan for a party: how many bytes are written.
pub fn of_plan(plan: &[u8], party: u32, page: &mut [u8]) -> Result<usize, Refusal>
    ensures { PageOf (asked plan.now party) result page.old page.new }
{
    let mut sets = [0u64; semiautomata::MAX_SETS];
    let loaded = plan::load(plan, party, &mut sets)?;
    let succ = loaded.over(&sets);
    of_sets(page, &succ)
}

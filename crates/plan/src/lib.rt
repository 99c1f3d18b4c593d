// Plan bytes (document 01; edition 2: document 02, W-207): refusals 1 to 7 and 16 are judged while what they mean for a party is loaded
// as successor sets. Nobody above looks at bytes: `load` gives the semiautomaton that a well-formed plan means for the party, `read` its
// counts alone; for those who need the lists themselves, `header_of`, `starts_of` and `Lists` give them.
#![tactic(auto)]

ghost use Rattle.std.specs.Prelude.{◌≡◌, false, not, ◌&&◌, ◌+◌, ◌≤◌, ◌<◌, ◌^◌, eqb, length};
ghost use Rattle.refusals.specs.Checks.{first_of};
ghost use Rattle.refusals.specs.Named.{outcome_of};
ghost use Rattle.plan.specs.Plan.{count_off, is_start, line_off, party_off};
ghost use Rattle.plan.specs.Bytes.{header_of, line_width, line_from, parsed_by, parsed, misplaced, header_checks, asked, WellFormed};
ghost use Rattle.plan.specs.Bytes.{counts_of, reading};
ghost use Rattle.bitset.specs.Sets.{any};
ghost use Rattle.bitset.specs.Numbers.{set_of};
ghost use Rattle.semiautomata.specs.Sizes.{max_sets};
ghost use Rattle.semiautomata.specs.Successors.{Blank, Fit};
ghost use Rattle.plan.specs.Loading.{Sound, Loads};
ghost use Rattle.plan.specs.inner.Entering.{NumbersOff, LineEntered};
ghost use Rattle.plan.specs.inner.Steps.{Finds, StartsEntered, twice_of, LinesEntered};

use refusals::Refusal;
use semiautomata::successors::Successors;
use semiautomata::{MAX_LETTERS, MAX_LINES, MAX_STATES};

// The highest party.
pub const MAX_PARTY: u8 = 7;

// The edition whose lines belong to parties, and how many bytes a line has there; in the other one it has one less.
pub const WITH_PARTIES: u16 = 2;

const WIDTH_WITH_PARTY: u8 = 4;

const WIDTH: u8 = 3;

// The eight numbers at the front of a plan.
#[derive(Clone, Copy)]
pub struct Header {
    pub edition: u16,
    pub n: u16,
    pub m: u16,
    pub p: u16,
    pub e: u16,
    pub starts: u16,
    pub lines: u16,
    pub total: u16,
}

// A line: from, letter (code), to; its party, 0 in edition 1.
#[derive(Clone, Copy)]
pub struct Line {
    pub from: u8,
    pub letter: u8,
    pub to: u8,
    pub party: u8,
}

// The counts of states, letters, starts and lines.
#[derive(Clone, Copy)]
pub struct Counts {
    pub n: u16,
    pub m: u16,
    pub p: u16,
    pub e: u16,
}

// What loading answers: the counts, and the set of starts; the successor sets are in what it was lent.
#[derive(Clone, Copy)]
pub struct Loaded {
    pub counts: Counts,
    pub starts: u64,
}

impl Loaded {
    // .. over these sets.
    #[inline(always)]
    pub fn over<'a>(&self, sets: &'a [u64]) -> Successors<'a>
        requires { Fit self.now.counts.n self.now.counts.m sets.now × (self.now.starts < 2 ^ self.now.counts.n) }
        ensures { (result.n ≡ self.now.counts.n) × (result.m ≡ self.now.counts.m) × (result.starts ≡ self.now.starts)
            × (result.sets.now ≡ sets.now) }
    {
        Successors {
            n: self.counts.n as usize,
            m: self.counts.m as usize,
            starts: self.starts,
            sets,
        }
    }
}

// Inlined, its numbers stay in registers in the loops over lines: reading is an eighth faster.
#[inline(always)]
pub fn header_of(plan: &[u8]) -> Header
    requires { 16 ≤ length plan.now }
    ensures { result ≡ header_of plan.now }
{
    Header {
        edition: endian::read::<2>(plan, 0) as u16,
        n: endian::read::<2>(plan, 2) as u16,
        m: endian::read::<2>(plan, 4) as u16,
        p: endian::read::<2>(plan, 6) as u16,
        e: endian::read::<2>(plan, 8) as u16,
        starts: endian::read::<2>(plan, 10) as u16,
        lines: endian::read::<2>(plan, 12) as u16,
        total: endian::read::<2>(plan, 14) as u16,
    }
}

// A line has so many bytes.
pub fn line_width(edition: u16) -> u8
    ensures { result ≡ line_width edition }
{
    if edition == WITH_PARTIES {
        WIDTH_WITH_PARTY
    } else {
        WIDTH
    }
}

// Refusal 3.
fn count_off(n: u16, m: u16, p: u16, e: u16) -> bool
    ensures { result ≡ count_off n m p e }
{
    (n < 1)
        | (n > MAX_STATES as u16)
        | (m < 1)
        | (m > MAX_LETTERS as u16)
        | (n < p)
        | (e > MAX_LINES as u16)
}

// Refusal 4.
fn is_misplaced(h: Header) -> bool
    ensures { result ≡ misplaced h }
{
    let total = h.total as u32;
    let starts = h.starts as u32;
    let lines = h.lines as u32;
    let starts_end = starts + h.p as u32;
    let lines_size = line_width(h.edition) as u32 * h.e as u32;
    let lines_end = lines + lines_size;
    (starts < 16)
        | (total < starts_end)
        | (lines < 16)
        | (total < lines_end)
        | ((0 < h.p) & (0 < lines_size) & (starts < lines_end) & (lines < starts_end))
}

// The first refusal of 1 to 4 that applies to so many bytes with this header.
fn check_header(h: Header, size: usize) -> Result<(), Refusal>
    requires { 16 ≤ size }
    ensures { Finds result (first_of (header_checks size h)) }
{
    if h.total as usize != size {
        return Err(Refusal::Size);
    }
    if (h.edition != 1) & (h.edition != WITH_PARTIES) {
        return Err(Refusal::Edition);
    }
    if count_off(h.n, h.m, h.p, h.e) {
        return Err(Refusal::Counts);
    }
    if is_misplaced(h) {
        return Err(Refusal::Parts);
    }
    Ok(())
}

// The lists of a plan whose header passes 1 to 4, so that they lie within its bytes.
#[derive(Clone, Copy)]
pub struct Lists<'a> {
    pub plan: &'a [u8],
    pub h: Header,
    pub ghost sound: { Sound plan.now h },
}

// The line at a place of the bytes, of a party.
fn line_at(plan: &[u8], at: usize, party: u8) -> Line
    requires { at + 3 ≤ length plan.now }
    ensures { result ≡ line_from plan.now at party }
{
    Line {
        from: plan[at],
        letter: plan[at + 1],
        to: plan[at + 2],
        party,
    }
}

// Whether a line of one party stands twice; the highest party of all lines, 0 if there are none.
#[derive(Drop)]
struct Lines {
    twice: bool,
    highest: u8,
}

// How many of a line's three numbers are off. They are counted, which takes no jumps: so the loop that loads is equally fast wherever its
// code lies.
#[inline(always)]
fn numbers_off(line: Line, n: u16, m: u16) -> usize
    ensures { NumbersOff n m line result }
{
    usize::from(n <= line.from as u16)
        + usize::from(m <= line.letter as u16)
        + usize::from(n <= line.to as u16)
}

// A line of the party is put into the set at its place; whether it stood there already is answered. One of another party changes nothing,
// and the answer is no. There are no jumps here either, as the parties of lines come in any order. Where a line is off, 6 is found whatever
// has been entered, and the remainders keep the place among the sets.
#[inline(always)]
fn enter_line(sets: &mut [u64; semiautomata::MAX_SETS], m: u16, line: Line, party: u32) -> bool
    ensures { LineEntered m party line sets.old sets.new result }
{
    let place = (line.from as u32 * m as u32 + line.letter as u32) as usize;
    let set = sets[place % semiautomata::MAX_SETS];
    let more = set | (1 << (line.to % 64));
    let mine = line.party as u32 == party;
    sets[place % semiautomata::MAX_SETS] = if mine { more } else { set };
    mine & (more == set)
}

impl<'a> Lists<'a> {
    ghost use Rattle.plan.specs.Listed.{listed};

    // Those of a well-formed plan.
    pub fn of(plan: &'a [u8]) -> Lists<'a>
        requires { WellFormed plan.now }
        ensures { (result.plan.now ≡ plan.now) × (result.h ≡ header_of plan.now) }
    {
        Lists {
            plan,
            h: header_of(plan),
        }
    }

    // The line at a place of the list; each edition multiplies by a constant.
    #[inline(always)]
    pub fn line(&self, i: usize) -> Line
        requires { i < self.now.h.e }
        ensures { result ≡ (listed self.now).line i }
    {
        if self.h.edition == WITH_PARTIES {
            let at = self.h.lines as usize + WIDTH_WITH_PARTY as usize * i;
            line_at(self.plan, at, self.plan[at + 3])
        } else {
            line_at(self.plan, self.h.lines as usize + WIDTH as usize * i, 0)
        }
    }

    // The starts as a set, or refusal 5.
    fn enter_starts(&self) -> Result<u64, Refusal>
        ensures { StartsEntered (listed self.now) result }
    {
        let from = self.h.starts as usize;
        let mut set: u64 = 0;
        for start in &self.plan[from..from + self.h.p as usize] {
            let s = *start as u32;
            if self.h.n as u32 <= s || bitset::contains(set, s) {
                return Err(Refusal::Start);
            }
            set |= 1 << s;
        }
        Ok(set)
    }

    // The lines of the party are entered, or refusal 6, judged when all lines are read: the loop is faster with no way out.
    fn enter_lines(
        &self,
        party: u32,
        sets: &mut [u64; semiautomata::MAX_SETS],
    ) -> Result<Lines, Refusal>
        requires { Blank max_sets sets.old }
        ensures { LinesEntered (listed self.now) party sets.new result }
    {
        let lists = *self; // by value, so that the loop has its parts at hand
        let mut off: usize = 0;
        let mut twice = false;
        let mut highest: u8 = 0;
        for i in 0..lists.h.e as usize {
            let line = lists.line(i);
            off += numbers_off(line, lists.h.n, lists.h.m);
            twice |= enter_line(sets, lists.h.m, line, party);
            highest = highest.max(line.party);
        }
        if off > 0 {
            return Err(Refusal::Line);
        }
        Ok(Lines { twice, highest })
    }

    // Whether a line of the party stands twice, where 6 does not apply. It has a loop of its own: so the one that loads has one caller and
    // is compiled into it, and a plan of edition 1 is read as fast as if there were no parties. The party is a byte, as a line has it: that
    // keeps the code that passes over another party's lines within 16 bytes.
    fn twice_of(&self, party: u8) -> bool
        requires { line_off (listed self.now) ≡ false }
        ensures { result ≡ twice_of (listed self.now) party }
    {
        let mut sets = [0u64; semiautomata::MAX_SETS];
        let mut again = false;
        for i in 0..self.h.e as usize {
            let line = self.line(i);
            if line.party != party {
                continue; // of several parties most lines are of others
            }
            again |= enter_line(&mut sets, self.h.m, line, party as u32);
        }
        again
    }

    // The same of any party up to the highest, other than the one whose lines are entered already.
    fn twice_elsewhere(&self, party: u32, highest: u8) -> bool
        requires { line_off (listed self.now) ≡ false }
        ensures { result ≡ any (highest + 1) (λ q. not (eqb q party) && twice_of (listed self.now) q) }
    {
        let mut twice = false;
        for other in 0..highest as u32 + 1 {
            if other != party {
                twice |= self.twice_of(other as u8);
            }
        }
        twice
    }
}

// 16 of a call that names a party.
fn party_off(edition: u16, party: u32) -> bool
    ensures { result ≡ party_off edition party }
{
    ((MAX_PARTY as u32) < party) | ((edition != WITH_PARTIES) & (party != 0))
}

// What a plan means for a party, in sets lent empty: its initial states are answered with its counts. Or its first refusal.
pub fn load(
    plan: &[u8],
    party: u32,
    sets: &mut [u64; semiautomata::MAX_SETS],
) -> Result<Loaded, Refusal>
    requires { Blank max_sets sets.old }
    ensures { Loads (asked plan.now party) (counts_of (header_of plan.now)) sets.new result }
{
    if plan.len() < 16 {
        return Err(Refusal::Size);
    }
    let h = header_of(plan);
    check_header(h, plan.len())?;
    let lists = Lists { plan, h };
    let starts = lists.enter_starts()?;
    let lines = lists.enter_lines(party, sets)?;
    if lines.twice || lists.twice_elsewhere(party, lines.highest) {
        return Err(Refusal::Twice);
    }
    if (MAX_PARTY < lines.highest) | party_off(h.edition, party) {
        return Err(Refusal::Party);
    }
    let counts = Counts {
        n: h.n,
        m: h.m,
        p: h.p,
        e: h.e,
    };
    Ok(Loaded { counts, starts })
}

// n, m, p and e of a plan, or its first refusal.
pub fn read(plan: &[u8]) -> Result<Counts, Refusal>
    ensures { outcome_of result ≡ reading plan.now }
{
    let mut sets = [0u64; semiautomata::MAX_SETS];
    let loaded = load(plan, 0, &mut sets)?;
    Ok(loaded.counts)
}

// The starts of a well-formed plan, as a set.
pub fn starts_of(plan: &[u8]) -> u64
    requires { WellFormed plan.now }
    ensures { result ≡ set_of (parsed plan.now).n (is_start (parsed plan.now)) }
{
    Lists::of(plan).enter_starts().unwrap()
}

// The record of a walk as bytes (document 01, Walks): reading its numbers, testing its layout, writing it anew or with one letter more.
// What a record means for a walk is crate deciding's; here are only its bytes.
#![tactic(auto)]

ghost use Rattle.std.specs.Prelude.{◌≡◌, true, ◌∷◌, ◌++◌, ◌+◌, ◌≤◌, ◌<◌, length, drop};
ghost use Rattle.streaming.specs.PlainWalk.{limit};
ghost use Rattle.endian.specs.Numbers.{number_at, bytes_of};
ghost use Rattle.records.specs.Bytes.{held_count, decode, tidy};
ghost use Rattle.records.specs.Taking.{regular, pushed, taken_into, started_into};

// So many letters are taken at the most.
pub const LIMIT: usize = 1000000;

// Where the held letters begin; the numbers of a record stand before them.
pub const HELD_FROM: usize = 8;

// READING

#[inline(always)]
pub fn fed_of(rec: &[u8]) -> usize
    requires { 8 ≤ length rec.now }
    ensures { result ≡ number_at rec.now 0 4 }
{
    endian::read::<4>(rec, 0) as usize
}

#[inline(always)]
pub fn held_of(rec: &[u8]) -> usize
    requires { 8 ≤ length rec.now }
    ensures { result ≡ held_count rec.now }
{
    endian::read::<2>(rec, 6) as usize
}

// The held letters, oldest first.
#[inline(always)]
pub fn letters_of(rec: &[u8]) -> &[u8]
    requires { 8 + held_count rec.now ≤ length rec.now }
    ensures { result.now ≡ (decode rec.now).held }
{
    let end = HELD_FROM + held_of(rec);
    &rec[HELD_FROM..end]
}

// Whether a record keeps the rules of the layout.
pub fn is_tidy(rec: &[u8], k: usize) -> bool
    requires { 8 + k ≤ length rec.now }
    ensures { result ≡ tidy k rec.now }
{
    let held = held_of(rec);
    if k < held {
        return false;
    }
    let rest = &rec[HELD_FROM + held..HELD_FROM + k];
    rec[5] == 0 && rest.iter().all(|byte| *byte == 0)
}

// Whether a record's numbers keep its rules.
#[tactic(auto, unfolding(streaming::specs::PlainWalk::limit))]
pub fn is_regular(n: usize, k: usize, fed: usize, last: usize, held: usize) -> bool
    ensures { result ≡ regular n k fed last held }
{
    let counted = fed <= LIMIT && held == fed.min(k);
    if fed < k {
        counted && last == 255
    } else {
        counted && last < n
    }
}

// WRITING

// The numbers of a record, bytes 0 to 7.
#[inline(always)]
fn write_numbers(rec: &mut [u8], fed: u32, last: u8, held: u32)
    requires { 8 ≤ length rec.old }
    ensures { rec.new ≡ bytes_of 4 fed ++ (last ∷ 0 ∷ bytes_of 2 held ++ drop 8 rec.old) }
{
    endian::write::<4>(rec, 0, fed);
    rec[4] = last;
    rec[5] = 0;
    endian::write::<2>(rec, 6, held);
}

// One letter more, behind the h of at most k that are held; where k are held they move up by one.
#[inline(always)]
fn push(held: &mut [u8], k: usize, h: usize, letter: u8)
    requires { (h ≤ k) × (k ≤ length held.old) }
    ensures { held.new ≡ pushed k h held.old letter }
{
    if h < k {
        held[h] = letter;
    } else if 0 < k {
        held.copy_within(1..k, 0);
        held[k - 1] = letter;
    }
}

// A letter is taken into a record.
pub fn keep(rec: &mut [u8], k: usize, letter: u8, last: u8)
    requires { (8 + k ≤ length rec.old) × (tidy k rec.old ≡ true) × ((decode rec.old).fed < limit) }
    ensures { rec.new ≡ taken_into k rec.old letter last }
{
    let fed = fed_of(rec);
    let held = held_of(rec);
    push(&mut rec[HELD_FROM..], k, held, letter);
    write_numbers(rec, (fed + 1) as u32, last, (held + 1).min(k) as u32);
}

// A record of no letters, whose last state is given.
pub fn start(rec: &mut [u8], k: usize, last: u8)
    requires { 8 + k ≤ length rec.old }
    ensures { rec.new ≡ started_into k rec.old last }
{
    rec[HELD_FROM..HELD_FROM + k].fill(0);
    write_numbers(rec, 0, last, 0);
}

// Runs document 01's plans A to H through the calls and writes a line for each: the look-ahead, or the refusal and whether its evidence
// passes the check; then what document 01 says of that plan beside.
// `stdout` is written from document 01, D's line from document 02 (W-202); crates/demand proves the same of the definitions.
#![tactic(auto)]

use bitset::Members;
use lookahead::Evidence;
use prepare::Unprepared;
use refusals::Refusal;
use std::io::Write;

// What cannot be written is missing in what is compared.
fn say(rt: &HostRuntime, text: &[u8]) {
    let _ = rt.stdout().write_all(text);
}

fn say_number(rt: &HostRuntime, text: &[u8], number: u64) {
    say(rt, text);
    say(rt, b" ");
    let _ = print!(rt; "{number}");
}

fn say_refused(rt: &HostRuntime, r: Refusal) {
    say_number(rt, b" refused", u64::from(r.number()));
}

// The members of a set, ascending.
fn say_set(rt: &HostRuntime, set: u64) {
    for s in Members::of(set) {
        say_number(rt, b"", s as u64);
    }
}

// What the check says of evidence.
fn say_checked(rt: &HostRuntime, plan: &[u8], e: Evidence, letters: &[u8]) {
    match claim::check(plan, 0, e, letters) {
        Ok(true) => say(rt, b" evidence yes"),
        Ok(false) => say(rt, b" evidence no"),
        Err(r) => say_number(rt, b" evidence refused", u64::from(r.number())),
    }
}

// The plan's table, and what preparing answers of it.
fn say_prepared(rt: &HostRuntime, name: &[u8], plan: &[u8], table: &mut [u64]) {
    let mut letters = [0u8; 4096];
    say(rt, name);
    match prepare::prepare(plan, 0, table, &mut letters) {
        Ok(k) => say_number(rt, b" look-ahead", k as u64),
        Err(Unprepared::Refused(r)) => say_refused(rt, r),
        Err(Unprepared::Unpredictable(e)) => {
            say_number(rt, b" refused", 15);
            say_checked(rt, plan, e, &letters);
        }
    }
}

// The verdict on a word for what a state and a letter lead to.
fn say_judged(rt: &HostRuntime, table: &[u64], state: u32, letter: u32, word: &[u8]) {
    match simulate::judge(table, state, letter, word) {
        Err(r) => say_refused(rt, r),
        Ok(v) => {
            if v.minimal {
                say(rt, b" minimal selector of");
                say_set(rt, v.survivors);
            }
            if v.nonselected != 0 {
                say(rt, b" maximal nonselector of");
                say_set(rt, v.nonselected);
            }
        }
    }
}

// The possible states at each position of a walk of at most two letters.
fn say_walked(rt: &HostRuntime, table: &[u64], word: &[u8]) {
    let mut sets = [0u64; 3];
    match simulate::walk(table, word, &mut sets) {
        Err(r) => say_refused(rt, r),
        Ok(g) => {
            for (position, set) in sets.iter().enumerate() {
                if position <= g {
                    say_number(rt, b" at", position as u64);
                    say(rt, b":");
                    say_set(rt, *set);
                }
            }
        }
    }
}

fn say_opened(rt: &HostRuntime, table: &[u64]) {
    let mut rec = [0u8; 8];
    match predictor::open(table, &mut rec) {
        Err(r) => say_number(rt, b" opening refused", u64::from(r.number())),
        Ok(Some(resolved)) => say_number(rt, b" opening at stake", u64::from(resolved.state)),
        Ok(None) => say(rt, b" opening nothing"),
    }
}

// One line for a plan of which only the look-ahead is said.
fn case(rt: &HostRuntime, name: &[u8], plan: &[u8]) {
    let mut table = [0u64; 2052];
    say_prepared(rt, name, plan, &mut table);
    say(rt, b"\n");
}

fn case_a(rt: &HostRuntime) {
    let mut table = [0u64; 2052];
    say_prepared(
        rt,
        b"A",
        b"\x01\x00\x03\x00\x01\x00\x01\x00\x03\x00\x10\x00\x11\x00\x1a\x00\x00\x00\x00\x01\x01\x00\x01\x01\x00\x02",
        &mut table,
    );
    say(rt, b"; empty word:");
    say_judged(rt, &table, 1, 0, b"");
    say(rt, b"; word 0:");
    say_judged(rt, &table, 1, 0, b"\x00");
    say(rt, b"\n");
}

fn case_c(rt: &HostRuntime) {
    let mut table = [0u64; 2052];
    say_prepared(
        rt,
        b"C",
        b"\x01\x00\x04\x00\x02\x00\x02\x00\x03\x00\x10\x00\x12\x00\x1b\x00\x00\x01\x00\x00\x02\x01\x00\x02\x02\x01\x03",
        &mut table,
    );
    say(rt, b"; walk 0 1:");
    say_walked(rt, &table, b"\x00\x01");
    say(rt, b"\n");
}

fn case_e(rt: &HostRuntime) {
    let mut table = [0u64; 2052];
    say_prepared(
        rt,
        b"E",
        b"\x01\x00\x01\x00\x01\x00\x00\x00\x00\x00\x10\x00\x10\x00\x10\x00",
        &mut table,
    );
    say(rt, b";");
    say_opened(rt, &table);
    say(rt, b"\n");
}

fn case_f(rt: &HostRuntime) {
    let mut table = [0u64; 2052];
    say_prepared(
        rt,
        b"F",
        b"\x01\x00\x02\x00\x01\x00\x02\x00\x00\x00\x10\x00\x12\x00\x12\x00\x00\x01",
        &mut table,
    );
    say(rt, b"; empty walk:");
    say_walked(rt, &table, b"");
    say(rt, b"\n");
}

fn main(rt: HostRuntime) {
    case_a(&rt);
    case(
        &rt,
        b"B",
        b"\x01\x00\x02\x00\x01\x00\x01\x00\x03\x00\x10\x00\x11\x00\x1a\x00\x00\x00\x00\x00\x00\x00\x01\x01\x00\x01",
    );
    case_c(&rt);
    case(
        &rt,
        b"D",
        b"\x01\x00\x03\x00\x01\x00\x01\x00\x04\x00\x10\x00\x11\x00\x1d\x00\x00\x00\x00\x00\x01\x00\x01\x01\x00\x02\x02\x00\x02",
    );
    case_e(&rt);
    case_f(&rt);
    case(
        &rt,
        b"G",
        b"\x01\x00\x03\x00\x02\x00\x02\x00\x04\x00\x10\x00\x12\x00\x1e\x00\x00\x01\x00\x00\x01\x01\x00\x02\x01\x01\x00\x02\x01\x02",
    );
    case(
        &rt,
        b"H",
        b"\x01\x00\x04\x00\x02\x00\x02\x00\x04\x00\x10\x00\x12\x00\x1e\x00\x00\x01\x00\x00\x02\x01\x00\x02\x02\x01\x03\x03\x01\x03",
    );
}

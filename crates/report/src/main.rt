// The report of document 01: plan bytes and then one byte a leg from standard input, the lines to standard output.
// What is printed, and which call comes next, is proved in crates text and steps; here bytes are read and written. A read takes what is
// there, so that a leg is reported as it arrives. What could not be read or written is said on standard error, and nothing more is written.
#![tactic(auto)]

ghost use Rattle.std.specs.Prelude.{◌≤◌, length};
ghost use Rattle.steps.specs.Steps.{Readable};

use std::io::{Read, Write};
use steps::Stage;

// A line on standard error, which says what could not be done; if it cannot be written either, nothing more can be said.
fn complain(rt: &HostRuntime, line: &[u8]) {
    let _ = rt.stderr().write_all(line);
}

// Some bytes are read, a step is done on them, and what it answers is written. Answers where the report stands then.
fn turn(
    rt: &HostRuntime,
    stage: Stage,
    input: &mut [u8],
    table: &mut [u64; table::MAX_TABLE],
    rec: &mut [u8; text::RECORD_SIZE],
    out: &mut [u8; steps::OUT_SIZE],
) -> Stage
    requires { Readable stage × (65535 ≤ length input.old) }
    ensures { Readable result }
{
    let from = steps::from(stage);
    let upto = steps::upto(stage);
    let Ok(count) = rt.stdin().read(&mut input[from..upto]) else {
        complain(rt, b"report: standard input could not be read\n");
        return Stage::Over;
    };
    let next = steps::step(stage, &input[..from + count], table, rec, out);
    if rt.stdout().write_all(&out[..next.count]).is_err() {
        complain(rt, b"report: standard output could not be written\n");
        return Stage::Over;
    }
    next.stage
}

fn main(rt: HostRuntime) {
    let mut input = [0u8; 65535];
    let mut table = [0u64; table::MAX_TABLE];
    let mut rec = [0u8; text::RECORD_SIZE];
    let mut out = [0u8; steps::OUT_SIZE];
    let mut stage = steps::first();
    // a proved loop has to end: no run uses up so many turns
    for _ in 0..u64::MAX {
        if steps::upto(stage) <= steps::from(stage) {
            break;
        }
        stage = turn(&rt, stage, &mut input, &mut table, &mut rec, &mut out);
    }
}

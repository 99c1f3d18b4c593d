// The page program (document 02, W-206): plan bytes from standard input, their page to standard output; a refusal is a line, as in the
// report. What is printed is proved (`page_of`); here bytes are read and written, no more of them than are wanted for the plan, so that
// its page is there as soon as it is. What could not be read or written is said on standard error, and nothing more is written.
#![tactic(auto)]

ghost use Rattle.std.specs.Prelude.{◌≤◌, IfOk, length};
ghost use Rattle.plan.specs.Bytes.{asked};
ghost use Rattle.pages.specs.Page.{max_page};
ghost use Rattle.page.specs.Printing.{Prints, Paged};

use refusals::Refusal;
use slices::Filling;
use std::io::{self, Read, Write};

// The page of an input's plan.
fn paged(input: &[u8], out: &mut [u8]) -> Result<usize, Refusal>
    requires { max_page ≤ length out.old }
    ensures { Paged input.now result out.old out.new }
{
    if inputs::no_plan(input) {
        return Err(Refusal::Size);
    }
    pages::of_plan(&input[..inputs::total(input)], 0, out)
}

// .. or the line of its refusal: so many bytes of a buffer with room for every page.
fn page_of(input: &[u8], out: &mut [u8]) -> usize
    requires { max_page ≤ length out.old }
    ensures { Prints input.now out.old result out.new }
{
    match paged(input, out) {
        Ok(count) => count,
        Err(refusal) => {
            let mut line = Filling { out, at: 0 };
            lines::refused(&mut line, refusal.number());
            line.at
        }
    }
}

// An input is read up to the end of its plan, or up to its own end if that comes first: how many bytes.
fn read_plan(rt: &HostRuntime, input: &mut [u8]) -> io::Result<usize>
    requires { 65535 ≤ length input.old }
    ensures { IfOk result (λ count. count ≤ 65535) }
{
    let mut end = 0;
    loop {
        let upto = inputs::wanted(&input[..end]);
        if upto <= end {
            return Ok(end);
        }
        let count = rt.stdin().read(&mut input[end..upto])?;
        if count == 0 {
            return Ok(end);
        }
        end += count;
    }
}

// A line on standard error, which says what could not be done; if it cannot be written either, nothing more can be said.
fn complain(rt: &HostRuntime, line: &[u8]) {
    let _ = rt.stderr().write_all(line);
}

fn main(rt: HostRuntime) {
    let mut input = [0u8; 65535];
    let mut out = [0u8; pages::MAX_PAGE];
    let Ok(end) = read_plan(&rt, &mut input) else {
        complain(&rt, b"page: standard input could not be read\n");
        return;
    };
    let count = page_of(&input[..end], &mut out);
    if rt.stdout().write_all(&out[..count]).is_err() {
        complain(&rt, b"page: standard output could not be written\n");
    }
}

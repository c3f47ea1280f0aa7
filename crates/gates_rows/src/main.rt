//! Rows of circuits that are made small: on standard input a heading `==== GATES SIDE KIND SLIP NAME` and then a circuit in ASCII AIGER; on
//! standard output the heading and whether the small circuit passes the test of `tests`, the states that it reaches, and whether it has few
//! gates: no more than GATES, which is what ABC makes of it. Where a layer is told a SLIP, the circuit is rejected, or there is
//! none.
#![tactic(auto)]

mod headings;
mod making;
mod tests;

use making::push_row;
use std::io::{BufRead, Write};

/// What a line begins with that is a heading.
const HEADING: &[u8] = b"==== ";

fn main(rt: HostRuntime) -> anyhow::Result<()> {
    let alloc = rt.alloc();
    let mut input = rt.stdin().lock();
    let mut out = Vec::new(alloc);
    let mut heading = Vec::new(alloc);
    let mut text = Vec::new(alloc);
    let mut line = Vec::new(alloc);
    for _ in 0..u64::MAX {
        let count = input.read_until(b'\n', &mut line)?;
        if count == 0 || line.starts_with(HEADING) {
            if !heading.is_empty() {
                push_row(alloc, &mut out, &heading, &text)?;
            }
            heading.clear();
            text.clear();
            heading.extend_from_slice(&line)?;
        } else {
            text.extend_from_slice(&line)?;
        }
        if count == 0 {
            break;
        }
        line.clear();
    }
    rt.stdout().write_all(&out)?;
    Ok(())
}

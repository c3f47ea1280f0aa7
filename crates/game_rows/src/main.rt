//! Rows of texts that are played: on standard input a heading `==== STEPS GATES SIDES SLIP NAME` and then the text; on standard output the
//! heading and who wins within so many steps, whether the circuit passes product_test, the states of the machine, and whether the
//! circuit has few gates: at most six where the heading names five. What the stored run must print is what the search for machines of
//! each size answers, and GATES are those of its circuit. Where the games are told a SLIP, so that a side wins that can't, its circuit is
//! rejected. Where a line `---- circuit` and a circuit stand behind the text, its machine is made smaller instead, and what is left is
//! tested so.
#![tactic(auto)]

mod headings;
mod plays;
mod reductions;

use plays::push_row;
use std::io::{BufRead, Write};

/// What a line begins with that is a heading.
const HEADING: &[u8] = b"==== ";

fn main(rt: HostRuntime) -> anyhow::Result<()> {
    let alloc = rt.alloc();
    let mut input = rt.stdin().lock();
    let mut out = Vec::new(alloc);
    let mut heading = Vec::new(alloc);
    let mut text = Vec::new(alloc);
    let mut line = Vec::new(alloc);
    for _ in 0..u64::MAX {
        let count = input.read_until(b'\n', &mut line)?;
        if count == 0 || line.starts_with(HEADING) {
            if !heading.is_empty() {
                push_row(&rt, alloc, &mut out, &heading, &text)?;
            }
            heading.clear();
            text.clear();
            heading.extend_from_slice(&line)?;
        } else {
            text.extend_from_slice(&line)?;
        }
        if count == 0 {
            break;
        }
        line.clear();
    }
    rt.stdout().write_all(&out)?;
    Ok(())
}

//! Rows of texts that are played as games of reactivity(1): on standard input a heading `==== STEPS SLIP NAME` and then the text; on standard
//! output the heading and who wins within so many steps, and whether the circuit passes product_test, or why nobody wins. What the stored
//! run must print of a text without a slip is what the search for machines of each size answers. Where the game is told a SLIP, so that a
//! side wins that can't, its circuit is rejected. Behind the rows stand lines on what is drawn: for each rule of rewriting whether the truth
//! on lassos stays the same, and whether this game and that of whole automata find the same side.
#![tactic(auto)]

mod drawn_forms;
mod drawn_texts;
mod headings;
mod lassos;
mod plays;
mod rules;

use drawn_texts::push_agreement;
use plays::push_row;
use rules::push_rules;
use std::io::{BufRead, Write};

/// What a line begins with that is a heading.
const HEADING: &[u8] = b"==== ";

fn main(rt: HostRuntime) -> anyhow::Result<()> {
    let alloc = rt.alloc();
    let mut input = rt.stdin().lock();
    let mut out = Vec::new(alloc);
    let mut heading = Vec::new(alloc);
    let mut text = Vec::new(alloc);
    let mut line = Vec::new(alloc);
    for _ in 0..u64::MAX {
        let count = input.read_until(b'\n', &mut line)?;
        if count == 0 || line.starts_with(HEADING) {
            if !heading.is_empty() {
                push_row(alloc, &mut out, &heading, &text)?;
            }
            heading.clear();
            text.clear();
            heading.extend_from_slice(&line)?;
        } else {
            text.extend_from_slice(&line)?;
        }
        if count == 0 {
            break;
        }
        line.clear();
    }
    push_rules(alloc, &mut out)?;
    push_agreement(&rt, alloc, &mut out)?;
    rt.stdout().write_all(&out)?;
    Ok(())
}

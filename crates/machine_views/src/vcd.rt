//! A run as a value change dump (IEEE 1364), which waveform viewers open.

use crate::runs::Step;
use letters_and_lassos::Letter;
use machine_table::{Machine, Part, Text, escaped};
use std::alloc::{AllocError, Global};

/// A `$` could begin a word of the format.
const SIGNS: [(char, &str); 1] = [('$', "_")];

const HEAD: &str =
    "$version boundsyn-show $end\n$timescale 1 ns $end\n$scope module machine $end\n";

/// The clock and the state, in a scope of their own, where no signal has such a name.
const INNER: &str =
    "$scope module inner $end\n$var wire 1 c clock $end\n$var reg {} s state $end\n$upscope $end\n$upscope $end\n$enddefinitions $end\n";

/// Puts a run as a value change dump. Inputs are `i0`, `i1`, .. there, and outputs `o0`, `o1`, .. A step takes two units of time; the clock rises at its begin and falls in its middle.
pub(crate) fn put_vcd(
    alloc: Global,
    machine: &Machine,
    steps: &[Step],
    out: &mut Text,
) -> Result<(), AllocError> {
    out.put(HEAD);
    put_variables("i", &escaped(alloc, &machine.inputs.labels, &SIGNS)?, out);
    put_variables("o", &escaped(alloc, &machine.outputs.labels, &SIGNS)?, out);
    out.fill(
        INNER,
        &[Part::Number(u64::from(bits_of(machine.rows.len())))],
    );
    let mut before: Option<&Step> = None;
    let mut time = 0u64;
    for step in steps {
        out.fill("#{}\n1c\n", &[Part::Number(time)]);
        put_changes(
            "i",
            machine.inputs.labels.len(),
            before.map(|it| it.read),
            step.read,
            out,
        );
        put_changes(
            "o",
            machine.outputs.labels.len(),
            before.map(|it| it.written),
            step.written,
            out,
        );
        if before.is_none_or(|earlier| earlier.state != step.state) {
            put_state(step.state, out);
        }
        out.fill("#{}\n0c\n", &[Part::Number(time.saturating_add(1))]);
        time = time.saturating_add(2);
        before = Some(step);
    }
    out.fill("#{}\n", &[Part::Number(time)]);
    Ok(())
}

fn put_variables<'a>(sort: &'a str, labels: &'a [String], out: &mut Text) {
    for (place, label) in labels.iter().enumerate() {
        out.fill(
            "$var wire 1 {}{} {} $end\n",
            &[
                Part::Word(sort),
                Part::Number(place as u64),
                Part::Word(label),
            ],
        );
    }
}

/// The number of bits of the number of a state, of which there are so many; at least one.
pub(crate) fn bits_of(states: usize) -> u32 {
    let last = states.saturating_sub(1);
    usize::BITS.saturating_sub(last.leading_zeros()).max(1)
}

/// The values of a letter that differ from those before, or all of the first one.
fn put_changes(sort: &str, count: usize, before: Option<Letter>, letter: Letter, out: &mut Text) {
    for signal in 0u32..64 {
        let level = letter.has(signal);
        if (signal as usize) < count && before.is_none_or(|earlier| earlier.has(signal) != level) {
            let digit = if level { 1 } else { 0 };
            out.fill(
                "{}{}{}\n",
                &[
                    Part::Number(digit),
                    Part::Word(sort),
                    Part::Number(u64::from(signal)),
                ],
            );
        }
    }
}

fn put_state(state: usize, out: &mut Text) {
    out.put("b");
    let width = bits_of(state.saturating_add(1));
    for place in 0..width {
        let bit = width.saturating_sub(place).saturating_sub(1);
        out.put(if bit < usize::BITS && (state >> bit) & 1 == 1 {
            "1"
        } else {
            "0"
        });
    }
    out.put(" s\n");
}

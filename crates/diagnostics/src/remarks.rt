//! What is so of a controller that is printed, and seldom meant.

use crate::signal_names::SignalNames;
use outcome_news::{Owed, Remarks};
use std::alloc::AllocError;
use std::fmt::Write;

/// Appends what is so of a controller, in at most three lines: that it owes nothing, which outputs never change, and which inputs it never looks at.
pub(crate) fn push_remarks(
    remarks: Remarks,
    signals: &SignalNames,
    out: &mut String,
) -> Result<(), AllocError> {
    push_owed(remarks.owed, out)?;
    push_constant(remarks, signals.outputs(), out)?;
    push_unread(remarks.unread, signals.inputs(), out)
}

fn push_owed(owed: Owed, out: &mut String) -> Result<(), AllocError> {
    let Owed::OnlyInitially { preset, assert } = owed else {
        return Ok(());
    };
    out.push_str(
        "  No run of this controller meets the assumptions, so of its guarantees it owes nothing",
    )?;
    out.push_str(match (preset, assert) {
        (false, false) => "",
        (true, false) => " but PRESET",
        (false, true) => " but ASSERT up to the break",
        (true, true) => " but PRESET, and ASSERT up to the break",
    })?;
    out.push_str("; docs/WRITING.md, \"Controllers that owe nothing\", has three cures\n")
}

/// Appends which outputs are always true, and which always false.
fn push_constant(remarks: Remarks, outputs: &[String], out: &mut String) -> Result<(), AllocError> {
    let always_true = Signals::new(remarks.always_true, outputs);
    let always_false = Signals::new(remarks.always_false, outputs);
    match (always_true.first(), always_false.first()) {
        (None, None) => Ok(()),
        (Some(name), None) => {
            always_true.push_clause("  Output", "always true", out)?;
            writeln!(
                out,
                "; where that isn't meant, a guarantee has to ask for more, as `G F !{name}`"
            )
        },
        (None, Some(name)) => {
            always_false.push_clause("  Output", "always false", out)?;
            writeln!(
                out,
                "; where that isn't meant, a guarantee has to ask for more, as `G F {name}`"
            )
        },
        (Some(_), Some(name)) => {
            always_true.push_clause("  Output", "always true", out)?;
            always_false.push_clause(", and output", "always false", out)?;
            writeln!(
                out,
                "; where that isn't meant, a guarantee has to ask for more, as `G F {name}`"
            )
        },
    }
}

/// Appends which inputs are never looked at.
fn push_unread(unread: u64, inputs: &[String], out: &mut String) -> Result<(), AllocError> {
    let unread = Signals::new(unread, inputs);
    if unread.first().is_none() {
        return Ok(());
    }
    if unread.count() == inputs.len() {
        out.push_str("  No input is looked at")?;
    } else {
        unread.push_clause("  Input", "never looked at", out)?;
    }
    out.push_str("; where that isn't meant, a guarantee has to say what follows from one\n")
}

/// Some of a circuit's signals: those whose bits are set.
#[derive(Clone, Copy)]
struct Signals<'a> {
    bits: u64,
    names: &'a [String],
}

impl<'a> Signals<'a> {
    fn new(bits: u64, names: &'a [String]) -> Signals<'a> {
        Signals { bits, names }
    }

    /// The name of the first of them.
    fn first(self) -> Option<&'a str> {
        let mut bits = self.bits;
        for name in self.names {
            if bits & 1 == 1 {
                return Some(name.as_str());
            }
            bits >>= 1;
        }
        None
    }

    /// How many they are.
    fn count(self) -> usize {
        let mut bits = self.bits;
        let mut count = 0usize;
        for _ in self.names {
            if bits & 1 == 1 {
                count = count.saturating_add(1);
            }
            bits >>= 1;
        }
        count
    }

    /// Appends, behind a noun, that they are so: `Outputs a and b are always true`.
    fn push_clause(self, noun: &str, state: &str, out: &mut String) -> Result<(), AllocError> {
        let count = self.count();
        let (ending, verb) = if count == 1 { ("", "is") } else { ("s", "are") };
        write!(out, "{noun}{ending}")?;
        self.push_names(count, out)?;
        write!(out, " {verb} {state}")
    }

    /// Appends their names: ` a, b and c`.
    fn push_names(self, count: usize, out: &mut String) -> Result<(), AllocError> {
        let mut bits = self.bits;
        let mut place = 0usize;
        for name in self.names {
            if bits & 1 == 1 {
                place = place.saturating_add(1);
                out.push_str(match place {
                    1 => " ",
                    _ if place == count => " and ",
                    _ => ", ",
                })?;
                out.push_str(name)?;
            }
            bits >>= 1;
        }
        Ok(())
    }
}

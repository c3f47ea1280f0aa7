use crate::nexts::{Next, is_plain, push_next, push_too_large};
use document_text::Verdict;
use letters_and_lassos::{Kind, Side};
use machine_model::Counts;
use outcome_news::{LogEnd, Searched, SideLogs};
use program_words::MOST_ALONE;
use std::alloc::{AllocError, Global};
use std::fmt::Write;

/// What became of the sizes of one side.
#[derive(Drop)]
struct Sizes {
    refuted: Vec<u64>,
    full: Vec<u64>,
    /// How many sizes were searched, from 1 on.
    count: u64,
}

impl Sizes {
    fn of(alloc: Global, logs: SideLogs) -> Result<Sizes, AllocError> {
        let refuted = logs.sizes(alloc, LogEnd::Closed)?;
        let full = logs.sizes(alloc, LogEnd::Full)?;
        let count = refuted.len().saturating_add(full.len()) as u64;
        Ok(Sizes {
            refuted,
            full,
            count,
        })
    }
}

/// Appends why an answer has no verdict, or a machine that may not be the smallest: what became of the sizes of each side, why no
/// greater ones were searched, what may help, and a command that tries it, made from the words of one.
pub(crate) fn push_unknown(
    alloc: Global,
    name: &str,
    searched: &Searched,
    command: &[&str],
    out: &mut String,
) -> Result<(), AllocError> {
    write!(out, "{name}: ")?;
    match searched.verdict {
        Verdict::Machine { side, states, .. } => {
            push_bounded(side, u64::from(states), out)?;
            let sizes = Sizes::of(alloc, searched.logs.of(side))?;
            push_sizes(side, &sizes, searched, out)?;
            out.push('\n')?;
            push_next("try", command, smaller(searched), out)
        },
        Verdict::Unknown(_) => {
            let system = Sizes::of(alloc, searched.logs.system)?;
            let environment = Sizes::of(alloc, searched.logs.environment)?;
            push_open(&system, &environment, out)?;
            push_side(Side::System, &system, searched, out)?;
            push_side(Side::Environment, &environment, searched, out)?;
            let next = further(&system, &environment, searched);
            push_help(searched.kind, command, next, out)
        },
    }
}

fn push_bounded(side: Side, states: u64, out: &mut String) -> Result<(), AllocError> {
    let what = match side {
        Side::System => "realizable",
        Side::Environment => "unrealizable: the environment wins",
    };
    let states = Count(states);
    out.push_str(what)?;
    out.push_str(" with ")?;
    states.push_to("state", out)?;
    out.push_str(", and whether with fewer isn't known\n")
}

/// Appends that there is no verdict.
fn push_open(system: &Sizes, environment: &Sizes, out: &mut String) -> Result<(), AllocError> {
    out.push_str(if system.count == 0 && environment.count == 0 {
        "unknown: no size was searched at all\n"
    } else {
        "unknown: no machine was found at the sizes that were searched\n"
    })
}

/// Appends what became of the sizes of a side, and why no greater one was searched.
fn push_side(
    side: Side,
    sizes: &Sizes,
    searched: &Searched,
    out: &mut String,
) -> Result<(), AllocError> {
    push_sizes(side, sizes, searched, out)?;
    if sizes.count > 0 {
        out.push_str("; ")?;
    }
    let max = searched.max;
    if sizes.count >= u64::from(max) {
        return writeln!(out, "greater ones aren't asked for (`--max {max}`)");
    }
    if side == Side::Environment && sizes.count == 0 {
        out.push_str("its automaton passes a limit, or ")?;
    }
    let next = sizes.count.saturating_add(1);
    let most = most_clauses(searched);
    writeln!(out, "size {next} would have over {most} base clauses")
}

fn most_clauses(searched: &Searched) -> &'static str {
    match searched.counts {
        Counts::Whole => "1,000,000",
        Counts::Local => "4,000,000",
    }
}

fn push_sizes(
    side: Side,
    sizes: &Sizes,
    searched: &Searched,
    out: &mut String,
) -> Result<(), AllocError> {
    let name = match side {
        Side::System => "system",
        Side::Environment => "environment",
    };
    write!(out, "  {name}: ")?;
    if !sizes.refuted.is_empty() {
        push_list("size", &sizes.refuted, out)?;
        out.push_str(" refuted")?;
    }
    if !sizes.full.is_empty() {
        if !sizes.refuted.is_empty() {
            out.push_str("; ")?;
        }
        let noun = if sizes.full.len() > 1 {
            "the logs of size"
        } else {
            "the log of size"
        };
        push_list(noun, &sizes.full, out)?;
        out.push_str(" full")?;
        if let Some(entries) = searched.entries {
            write!(out, " (`--entries {entries}`)")?;
        }
    }
    Ok(())
}

/// Appends numbers behind a noun: `sizes 1, 2 and 3`.
fn push_list(noun: &str, numbers: &[u64], out: &mut String) -> Result<(), AllocError> {
    out.push_str(noun)?;
    if numbers.len() > 1 {
        out.push('s')?;
    }
    out.push(' ')?;
    push_numbers(numbers, out)
}

/// Appends numbers: `1, 2 and 3`.
pub(crate) fn push_numbers(numbers: &[u64], out: &mut String) -> Result<(), AllocError> {
    let last = numbers.len().saturating_sub(1);
    for (place, number) in numbers.iter().enumerate() {
        if place > 0 {
            out.push_str(if place == last { " and " } else { ", " })?;
        }
        write!(out, "{number}")?;
    }
    Ok(())
}

/// A number of things.
#[derive(Clone, Copy)]
pub(crate) struct Count(pub(crate) u64);

impl Count {
    /// Appends it with the noun: `1 state`, `2 states`.
    pub(crate) fn push_to(self, noun: &str, out: &mut String) -> Result<(), AllocError> {
        let number = self.0;
        write!(out, "{number} {noun}")?;
        if number == 1 { Ok(()) } else { out.push('s') }
    }
}

/// Options that may help.
fn further(system: &Sizes, environment: &Sizes, searched: &Searched) -> Next {
    let max = u64::from(searched.max);
    let is_cut = system.count < max || environment.count < max;
    let is_full = !system.full.is_empty() || !environment.full.is_empty();
    let is_more = searched.max < MOST_ALONE && (system.count >= max || environment.count >= max);
    Next {
        max: if is_more { Some(MOST_ALONE) } else { None },
        is_local: (is_cut || is_full) && searched.counts == Counts::Whole,
        entries: if is_full && searched.entries.is_some() {
            Some(None)
        } else {
            None
        },
        ..Next::NOTHING
    }
}

/// Options that may show that fewer states don't do, or find a machine with fewer.
fn smaller(searched: &Searched) -> Next {
    Next {
        is_local: searched.counts == Counts::Whole,
        entries: searched.entries.and(Some(None)),
        ..Next::NOTHING
    }
}

/// Appends commands that may go further, or that there are none. A Mealy machine may do where no Moore machine does, and not the other way round.
fn push_help(kind: Kind, command: &[&str], next: Next, out: &mut String) -> Result<(), AllocError> {
    let by_games = if is_synth(command) {
        push_solve(command, out)?
    } else {
        false
    };
    push_next("try", command, next, out)?;
    if kind == Kind::Moore {
        push_next("where a Mealy machine serves", command, Next::MEALY, out)
    } else if by_games || !next.is_nothing() {
        Ok(())
    } else {
        push_too_large(out)
    }
}

/// Whether a command is `synth`, in place of which `solve` may do. A core is had of `core` alone.
fn is_synth(command: &[&str]) -> bool {
    command.get(1).is_some_and(|word| *word == "synth")
}

/// Appends `solve` in place of a command, which plays games and isn't bound to eight states; and gives whether that could be written.
fn push_solve(command: &[&str], out: &mut String) -> Result<bool, AllocError> {
    let Some(name) = command.get(2) else {
        return Ok(false);
    };
    if !is_plain(name) || name.starts_with('-') {
        out.push_str("  try `solve`, which plays games, and isn't bound to eight states\n")?;
        return Ok(true);
    }
    write!(
        out,
        "  try games, which aren't bound to eight states: boundsyn solve {name}"
    )?;
    if let Some(kind) = kind_in(command) {
        write!(out, " --kind {kind}")?;
    }
    out.push('\n')?;
    Ok(true)
}

/// The kind that a command names.
fn kind_in<'a>(command: &[&'a str]) -> Option<&'a str> {
    let mut is_next = false;
    for word in command {
        if is_next {
            return Some(*word);
        }
        if let Some(kind) = word.strip_prefix("--kind=") {
            return Some(kind);
        }
        is_next = *word == "--kind";
    }
    None
}

//! The sizes of a side.
ghost use Rattle.std.specs.Prelude.{IfOk};
ghost use Rattle.solve_answer.specs.Parts.{CanBePlayed};

use crate::finding::form_of;
use crate::testing::is_short;
use input_output::Gate;
use letter_search::{Effort, Ended, Refutations, refute_sizes};
use letters_and_lassos::Side;
use size_refutations::{Ground, Sought};
use solve_ground::SolveText;
use solved_text::SizeLog;
use std::alloc::{AllocError, Global};
use std::sync::Wait;
use std::thread::Threads;
use time_limits::Deadline;

/// Which sizes are to be refuted, and with how much effort.
#[derive(Clone, Copy, Debug)]
pub struct Refuting {
    /// The sizes up to this one are tried, whatever their clauses. None: as far as their clauses are few.
    pub max: Option<u32>,
    /// The most entries of a log. None: no limit.
    pub entries: Option<u64>,
    /// How many workers search, from 1 to 64. One is the caller itself.
    pub workers: u32,
    /// After so many seconds the games and searches of a text end. None: they take as long as they take.
    pub seconds: Option<u32>,
}

impl Refuting {
    pub(crate) fn effort(self) -> Effort {
        Effort {
            max: self.max,
            entries: self.entries,
            workers: self.workers,
        }
    }
}

/// The logs before the first that has more entries than a log may have.
pub(crate) fn short_logs(logs: Vec<SizeLog>, refuting: Refuting) -> Vec<SizeLog> {
    let Some(most) = refuting.entries else {
        return logs;
    };
    let mut logs = logs;
    let short = logs.iter().take_while(|log| is_short(log, most)).count();
    logs.truncate(short);
    logs
}

/// What the logs of a side are tested against.
pub(crate) fn ground_of(
    alloc: Global,
    text: &SolveText,
    side: Side,
) -> Result<Ground<'_>, AllocError>
    requires { CanBePlayed text.now }
{
    let sought = Sought {
        formulas: &text.formulas,
        form: form_of(text, side),
        side,
        kind: match side {
            Side::System => text.kind,
            Side::Environment => text.kind.other(),
        },
        inputs: text.inputs.len() as u32,
        outputs: text.outputs.len() as u32,
    };
    Ground::new(alloc, sought)
}

/// What comes of the sizes below a known one of a side.
pub(crate) fn refuted<R: Threads + Wait + Sync, G: Gate + Sync, D: Deadline + Sync>(
    rt: &R,
    alloc: Global,
    text: &SolveText,
    side: Side,
    known: u32,
    refuting: Refuting,
    gate: &G,
    deadline: &D,
) -> Result<Refutations, AllocError>
    requires { CanBePlayed text.now }
{
    if known <= 1 {
        return Ok(no_log(alloc, Ended::AllRefuted));
    }
    if deadline.is_over() {
        return Ok(no_log(alloc, Ended::Time(1)));
    }
    let ground = ground_of(alloc, text, side)?;
    let effort = refuting.effort();
    Ok(refute_sizes(rt, alloc, &ground, known, effort, gate, deadline))
}

/// That no size was refuted, and why.
fn no_log(alloc: Global, ended: Ended) -> Refutations {
    Refutations {
        logs: Vec::new(alloc),
        ended,
    }
}

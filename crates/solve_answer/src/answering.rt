//! The answer to a text.
ghost use Rattle.std.specs.Prelude.{IfOk, IfSome};
ghost use Rattle.program_replies.specs.Statuses.{status_number};
ghost use Rattle.solve_answer.specs.Answer.{SolveAnswers};
ghost use Rattle.solve_answer.specs.Parts.{AnswersEach, CanBePlayed, limits_of};

use crate::deadlines::{Deadlines, seconds_for_sizes};
use crate::discoveries::{Discovery, Found};
use crate::documents::{strategy_document, unknown_text};
use crate::finding::{Search, find_strategy};
use crate::refuting::Refuting;
use crate::remarking::Original;
use crate::shrinking::{Plain, with_logs};
use crate::testing::tested;
use crate::told::wanted_memory;
use crate::unwon::search_sizes;
use game_machine::Budget;
use input_output::Gate;
use letters_and_lassos::Kind;
use outcome_news::{ConjunctEnd, Listener, News, Told, ToldReply, Unsolved, Withheld};
use program_replies::{Reply, Status, refusal};
use solve_ground::{SolveText, solve_text};
use std::alloc::{AllocError, Global};
use std::sync::Wait;
use std::thread::Threads;
use time_limits::{Deadline, Stopwatch, TextDeadline};

/// What the games of a text may use, unless something else is asked for.
pub const GAME_BUDGET: Budget = Budget {
    steps: 500_000_000,
    positions: 100_000,
    bytes: 1_000_000_000,
};

/// The answer to a text, whose machines are of the given kind, or of the text's TARGET: the line of its first fault with status 1, or a
/// document of version 6, with status 10 where it has a controller, 20 where it has a counter-strategy, and 30 where neither was found.
/// Where memory runs out in the games or searches and nothing was found, that is the answer; where it runs out in refuting sizes, the document
/// has the logs so far. The listener hears of the first strategy before smaller sizes are tried, and each worker passes the gate at each of
/// its turns.
///
/// It takes the time of both automata, of the games' budget, and of the circuit's states and pairs with each letter that is read, once to
/// find the annotation and once to test it; and then that of the sizes that are tried, whose logs are tested, too. Where that is more than
/// `refuting.seconds` by the stopwatch, games and searches end at their next turn, and what was found by then is tested and printed.
pub fn solve<R: Threads + Wait + Sync, G: Gate + Sync, S: Stopwatch + Sync, L: Listener>(
    rt: &R,
    alloc: Global,
    text: &[u8],
    given: Option<Kind>,
    budget: Budget,
    refuting: Refuting,
    gate: &G,
    stopwatch: &S,
    listener: &mut L,
) -> Result<ToldReply, AllocError>
    ensures { IfOk result (λ s. SolveAnswers text.now given (limits_of refuting) s.reply.bytes.items (status_number s.reply.status)) }
{
    let all = TextDeadline::begin(stopwatch, refuting.seconds);
    let sizes = TextDeadline::begin(stopwatch, seconds_for_sizes(refuting.seconds));
    let deadlines = Deadlines {
        all: &all,
        sizes: &sizes,
    };
    let original = Original { text, given };
    match solve_text(alloc, text, given) {
        Ok(known) => answer(
            rt, alloc, &known, original, budget, refuting, gate, &deadlines, listener,
        ),
        Err(fault) => Ok(ToldReply {
            reply: refusal(alloc, fault)?,
            told: Told::Refused,
        }),
    }
}

/// The answer to a text that is known.
fn answer<R: Threads + Wait + Sync, G: Gate + Sync, D: Deadline + Sync, L: Listener>(
    rt: &R,
    alloc: Global,
    text: &SolveText,
    original: Original<'_>,
    budget: Budget,
    refuting: Refuting,
    gate: &G,
    deadlines: &Deadlines<'_, '_, D>,
    listener: &mut L,
) -> Result<ToldReply, AllocError>
    requires { CanBePlayed text.now }
    ensures { IfOk result (λ s. AnswersEach text.now refuting s.reply) }
{
    listener.hear(News::Playing);
    match find_any(rt, alloc, text, budget, refuting, gate, deadlines, listener)? {
        Found::Of(discovery) => of_strategy(
            rt, alloc, text, original, discovery, refuting, gate, deadlines, listener,
        ),
        Found::Without(why, conjuncts) => unknown(alloc, text, why, conjuncts, refuting),
    }
}

/// A strategy that the games give, or a small machine where they give nothing to print.
fn find_any<R: Threads + Wait + Sync, G: Gate + Sync, D: Deadline + Sync, L: Listener>(
    rt: &R,
    alloc: Global,
    text: &SolveText,
    budget: Budget,
    refuting: Refuting,
    gate: &G,
    deadlines: &Deadlines<'_, '_, D>,
    listener: &mut L,
) -> Result<Found, AllocError>
    requires { CanBePlayed text.now }
{
    match find_strategy(rt, alloc, text, budget, refuting.workers, deadlines.all)? {
        Search::Of(strategy, engine) => Ok(Found::Of(Discovery::new(strategy, engine))),
        Search::Without(why, conjuncts) => {
            if refuting.max == Some(0) {
                return Ok(Found::Without(why, conjuncts));
            }
            if !deadlines.sizes.is_over() {
                listener.hear(News::Searching);
            }
            search_sizes(rt, alloc, text, why, conjuncts, refuting, gate, deadlines)
        }
    }
}

/// The document of a strategy, where it is accepted, with the logs of smaller sizes.
fn of_strategy<R: Threads + Wait + Sync, G: Gate + Sync, D: Deadline + Sync, L: Listener>(
    rt: &R,
    alloc: Global,
    text: &SolveText,
    original: Original<'_>,
    discovery: Discovery,
    refuting: Refuting,
    gate: &G,
    deadlines: &Deadlines<'_, '_, D>,
    listener: &mut L,
) -> Result<ToldReply, AllocError>
    requires { CanBePlayed text.now }
    ensures { IfOk result (λ s. AnswersEach text.now refuting s.reply) }
{
    let Discovery {
        strategy,
        solution,
        below,
    } = discovery;
    let document = strategy_document(alloc, text, strategy);
    let reply = match tested(alloc, text, &document, refuting)? {
        Ok(reply) => reply,
        Err(line) => {
            let why = Unsolved::Withheld(solution.side, Withheld::BadLine(line));
            return unknown(alloc, text, why, ConjunctEnd::Unplayed, refuting);
        }
    };
    if refuting.max == Some(0) {
        let circuit = document.circuit.as_ref();
        let told = original.with_remarks(alloc, solution, circuit, deadlines.all);
        return Ok(ToldReply {
            reply,
            told: Told::Found(told),
        });
    }
    listener.hear(News::Found(solution.side, solution.states));
    let plain = Plain { solution, document };
    let longer = with_logs(rt, alloc, text, plain, below, refuting, gate, deadlines);
    let circuit = longer.circuit.as_ref();
    let told = original.with_remarks(alloc, longer.solution, circuit, deadlines.all);
    let reply = better_of(text, refuting, longer.reply, reply);
    Ok(ToldReply {
        reply,
        told: Told::Found(told),
    })
}

/// The better reply to a text, where there is one, or the one that there is.
fn better_of(_text: &SolveText, _refuting: Refuting, better: Option<Reply>, reply: Reply) -> Reply
    requires better { IfSome better (AnswersEach _text.now _refuting) }
    requires other { AnswersEach _text.now _refuting reply }
    ensures { AnswersEach _text.now _refuting result }
{
    match better {
        Some(better) => better,
        None => reply,
    }
}

/// The document that says that neither was found, and why; where memory ran out, that it did.
fn unknown(
    alloc: Global,
    text: &SolveText,
    why: Unsolved,
    conjuncts: ConjunctEnd,
    _refuting: Refuting,
) -> Result<ToldReply, AllocError>
    ensures { IfOk result (λ s. AnswersEach text.now _refuting s.reply) }
{
    if wanted_memory(why, conjuncts) {
        return Err(AllocError);
    }
    Ok(ToldReply {
        reply: Reply {
            bytes: unknown_text(alloc, text)?,
            status: Status::Unknown,
        },
        told: Told::Unsolved(text.kind, why, conjuncts),
    })
}

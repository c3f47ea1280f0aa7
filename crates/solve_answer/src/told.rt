//! What is told beside an answer, in the words of outcome_news. Nothing is promised of it.

use crate::finding::Strategy;
use annotation_maker::Limit as AnnotationLimit;
use game_machine::End as GamesEnd;
use letter_search::Ended;
use outcome_news::{
    ConjunctEnd, ConjunctLimit, End, Engine, Limit, NotWon, Refuted, RefutingEnd, Remarks,
    Solution, Unsolved, Unwon,
};
use reactivity_machine::{Limit as GameLimit, Why};

/// What is told of a strategy that an engine found, below which no size is refuted so far.
pub(crate) fn solution_of(strategy: &Strategy, engine: Engine) -> Solution {
    Solution {
        side: strategy.side,
        states: strategy.states,
        latches: count_of(strategy.circuit.latches.len()),
        gates: count_of(strategy.circuit.gates.len()),
        engine,
        refuted: nothing(RefutingEnd::Done),
        remarks: Remarks::default(),
    }
}

/// Why nobody wins games that ended so.
pub(crate) fn not_won(end: GamesEnd) -> NotWon {
    match end {
        GamesEnd::Over => NotWon::Ended(End::Over),
        GamesEnd::Steps => NotWon::Ended(End::Steps),
        GamesEnd::Time => NotWon::Time,
    }
}

/// Why nobody wins the game of conjuncts.
pub(crate) fn conjunct_end(why: Why) -> ConjunctEnd {
    match why {
        Why::NoShape => ConjunctEnd::NoShape,
        Why::Passed(limit, _) => ConjunctEnd::Passed(conjunct_limit(limit)),
        Why::Time => ConjunctEnd::Time,
    }
}

fn conjunct_limit(limit: GameLimit) -> ConjunctLimit {
    match limit {
        GameLimit::Obligations => ConjunctLimit::Monitor,
        GameLimit::Alternatives => ConjunctLimit::Monitor,
        GameLimit::MonitorStates => ConjunctLimit::Monitor,
        GameLimit::Steps => ConjunctLimit::Steps,
        GameLimit::Positions => ConjunctLimit::Positions,
        GameLimit::Edges => ConjunctLimit::Edges,
        GameLimit::Bytes => ConjunctLimit::Bytes,
        GameLimit::Conjuncts => ConjunctLimit::Conjuncts,
        GameLimit::StrategyStates => ConjunctLimit::Strategy,
    }
}

/// Which limit an annotation passes.
pub(crate) fn limit_of(limit: AnnotationLimit) -> Limit {
    match limit {
        AnnotationLimit::Pairs => Limit::Pairs,
        AnnotationLimit::States => Limit::States,
        AnnotationLimit::Steps => Limit::Steps,
        AnnotationLimit::Leaves => Limit::Leaves,
    }
}

/// Why no further size is refuted.
pub(crate) fn refuting_end(ended: &Ended) -> RefutingEnd {
    match ended {
        Ended::AllRefuted => RefutingEnd::Done,
        Ended::Full(_) => RefutingEnd::Full,
        Ended::TooLarge(_) => RefutingEnd::TooLarge,
        Ended::Found(..) => RefutingEnd::NotMade,
        Ended::NoMemory(_) => RefutingEnd::NoMemory,
        Ended::Time(_) => RefutingEnd::Time,
    }
}

/// No size is refuted.
pub(crate) fn nothing(end: RefutingEnd) -> Refuted {
    Refuted { sizes: 0, end }
}

/// So many sizes are refuted.
pub(crate) fn so_many(sizes: usize, end: RefutingEnd) -> Refuted {
    Refuted {
        sizes: count_of(sizes),
        end,
    }
}

/// That neither side wins, and how far their sizes were tried.
pub(crate) fn neither(
    system: NotWon,
    first: Refuted,
    environment: NotWon,
    second: Refuted,
) -> Unsolved {
    let system = Unwon {
        why: system,
        refuted: first,
    };
    let environment = Unwon {
        why: environment,
        refuted: second,
    };
    Unsolved::Neither(system, environment)
}

/// Whether memory ran out in the games or searches that gave nothing to print.
pub(crate) fn wanted_memory(why: Unsolved, conjuncts: ConjunctEnd) -> bool {
    let in_others = match why {
        Unsolved::Neither(system, environment) => lacked(system) || lacked(environment),
        Unsolved::Withheld(..) => false,
    };
    in_others || conjuncts == ConjunctEnd::NoMemory
}

fn lacked(unwon: Unwon) -> bool {
    unwon.why == NotWon::NoMemory || unwon.refuted.end == RefutingEnd::NoMemory
}

fn count_of(count: usize) -> u32 {
    u32::try_from(count).unwrap_or(u32::MAX)
}

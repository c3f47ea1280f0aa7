//! Answers of a position among given ones.

use game_arena::Stop;
use game_moves::{Class, Game, Positions};
use safety_game::Answer;
use std::alloc::{AllocError, Global};

/// A position with its classes and an answer to each, whose targets are positions.
#[derive(Drop)]
pub(crate) struct Answered {
    pub(crate) classes: Vec<Class>,
    pub(crate) answers: Vec<Answer>,
}

/// Answers to each class of a position that lead to at most the position itself or one of the others; None where a class has none.
pub(crate) fn with_answers(
    alloc: Global,
    game: &mut Game<'_>,
    position: u32,
    others: &[u32],
) -> Result<Option<Answered>, Stop> {
    let classes = game.expand(position)?;
    let mut answers = Vec::new(alloc);
    for class in &classes {
        let tried = class.candidates.len().saturating_mul(others.len());
        game.meter.take(tried / 4)?;
        match first_answer(alloc, game, class, position, others)? {
            Some(answer) => answers.push(answer)?,
            None => return Ok(None),
        }
    }
    Ok(Some(Answered { classes, answers }))
}

fn first_answer(
    alloc: Global,
    game: &Game<'_>,
    class: &Class,
    position: u32,
    others: &[u32],
) -> Result<Option<Answer>, AllocError> {
    for (place, candidate) in class.candidates.iter().enumerate() {
        let mut targets = Vec::with_capacity(alloc, candidate.successors.len())?;
        for successor in &candidate.successors {
            match above(game, *successor, position, others) {
                Some(target) => targets.push(target)?,
                None => break,
            }
        }
        if targets.len() == candidate.successors.len() {
            return Ok(Some(Answer {
                candidate: place,
                targets,
            }));
        }
    }
    Ok(None)
}

/// The position itself or the first of the others that is at least the successor.
fn above(game: &Game<'_>, successor: u32, position: u32, others: &[u32]) -> Option<u32> {
    if game.positions.is_at_most(successor, position) {
        return Some(position);
    }
    first_above(&game.positions, successor, others)
}

/// The first of these positions that is at least another one.
pub(crate) fn first_above(positions: &Positions, least: u32, others: &[u32]) -> Option<u32> {
    for other in others {
        if positions.is_at_most(least, *other) {
            return Some(*other);
        }
    }
    None
}

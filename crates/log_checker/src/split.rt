ghost use Rattle.std.specs.Prelude.{◌≡◌, ◌≤◌, ◌<◌, ◌+◌, ◌*◌, IfOk, min, length};
ghost use Rattle.log_checker.specs.Faults.{follow_fault, IsFirstOf};
ghost use Rattle.log_checker.specs.Hinted.{IsCheckable};
ghost use Rattle.log_checker.specs.Pieces.{piece_start as start_of_piece, IsOfPiece, AreOfPieces, first_answer as answer_of};

use crate::LogFault;
use crate::hints::first_follow_fault;
use propositional_logic::Cnf;
use rayon::prelude::*;
use refutation_log::Entry;
use std::alloc::{AllocError, Global};
use std::thread::Threads;

/// The number of pieces: several for each processor of a large machine, so that slow pieces don't hold up the rest.
const PIECES: usize = 64;

/// The first fault of the hints of the entries up to a place, which are tested in pieces. The answers are taken in the order of the
/// pieces, whichever ended first.
pub(crate) fn first_follow_fault_split<R: Threads + Sync>(
    rt: &R,
    alloc: Global,
    base: &Cnf,
    entries: &[Entry],
    to: usize,
) -> Result<Option<LogFault>, AllocError>
    requires checkable { IsCheckable base.now.vars base.now.clauses.items entries.now }
    requires to { to ≤ length entries.now }
    ensures { IfOk result (IsFirstOf (follow_fault base.now.clauses.items) entries.now 0 to) }
{
    let size = to / PIECES + 1;
    let answers = answers_of_pieces(rt, alloc, base, entries, size, to)?;
    first_answer(&answers)
}

/// What is found of each piece of so many entries. A piece is much work, so each may go to a thread of its own.
fn answers_of_pieces<R: Threads + Sync>(
    rt: &R,
    alloc: Global,
    base: &Cnf,
    entries: &[Entry],
    size: usize,
    to: usize,
) -> Result<Vec<Result<Option<LogFault>, AllocError>>, AllocError>
    requires checkable { IsCheckable base.now.vars base.now.clauses.items entries.now }
    requires to { to ≤ length entries.now }
    ensures { IfOk result (λ answers. AreOfPieces base.now.clauses.items entries.now size to 64 answers.items) }
{
    (0..PIECES)
        .into_par_iter()
        .with_min_len(1)
        .map(
            |piece: usize| -> Result<Option<LogFault>, AllocError>
                requires { (piece < 64) × IsCheckable base.now.vars base.now.clauses.items entries.now × (to ≤ length entries.now) }
                ensures { IsOfPiece base.entry.now.clauses.items entries.entry.now size to piece result }
            { answer_of_piece(alloc, base, entries, size, to, piece) },
        )
        .collect(rt, alloc)
}

/// What is found of a piece.
fn answer_of_piece(
    alloc: Global,
    base: &Cnf,
    entries: &[Entry],
    size: usize,
    to: usize,
    piece: usize,
) -> Result<Option<LogFault>, AllocError>
    requires checkable { IsCheckable base.now.vars base.now.clauses.items entries.now }
    requires to { to ≤ length entries.now }
    requires piece { piece < 64 }
    ensures { IsOfPiece base.now.clauses.items entries.now size to piece result }
{
    let from = start_of(size, to, piece);
    first_follow_fault(alloc, base, entries, from, start_of(size, to, piece + 1))
}

/// Where a piece begins.
fn start_of(size: usize, to: usize, piece: usize) -> usize
    ensures { result ≡ start_of_piece size to piece }
{
    piece.saturating_mul(size).min(to)
}

/// The first answer that is a fault or an error.
fn first_answer(
    answers: &[Result<Option<LogFault>, AllocError>],
) -> Result<Option<LogFault>, AllocError>
    ensures { result ≡ answer_of answers.now }
{
    for answer in answers {
        match *answer {
            Err(error) => return Err(error),
            Ok(Some(fault)) => return Ok(Some(fault)),
            Ok(None) => {}
        }
    }
    Ok(None)
}

//! What a text that was taken says of a word.
ghost use Rattle.std.specs.Prelude.{ℕ, List, Option as Maybe, IfOk};
ghost use Rattle.letters_and_lassos.specs.declared.kinds.Kind.{Kind};
ghost use Rattle.program_replies.specs.Statuses.{status_number};
ghost use Rattle.solved_flat.specs.Lasso.{LassoSolveAnswers};
ghost use Rattle.solved_flat.specs.Taken.{CanBeAnswered, IsTaken};

use crate::texts::TakenText;
use flat_answer::truth_line;
use flat_lines::all_names;
use lasso_eval::holds_at;
use lasso_word::{WordFault, read_word};
use program_replies::{Reply, Status, refused_at_line, whole};
use std::alloc::{AllocError, Global};

/// Whether a text as `solve` takes it is true on the lasso that a word states over its signals: the line `true` or `false`, or the line with the number
/// of the word's first bad line.
pub fn lasso_solve_answer(
    alloc: Global,
    taken: &TakenText,
    word: &[u8],
) -> Result<Reply, AllocError>
    requires { CanBeAnswered taken.now }
    ensures { (text : List ℕ) (given : Maybe Kind) → IsTaken text given taken.now → IfOk result (λ r. LassoSolveAnswers text given word.now r.bytes.items (status_number r.status)) }
{
    let names = all_names(alloc, &taken.spec)?;
    let lasso = match read_word(alloc, word, &names) {
        Ok(lasso) => lasso,
        Err(WordFault::BadLine(line)) => return refused_at_line(alloc, line),
        Err(WordFault::NoMemory) => return Err(AllocError),
    };
    let known = &taken.known;
    let truth = holds_at(alloc, &known.formulas, known.normal, &lasso, 0)?;
    whole(alloc, truth_line(truth), Status::Done)
}

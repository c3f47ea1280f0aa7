//! What a text says of a word.
ghost use Rattle.std.specs.Prelude.{◌≡◌, ℕ, List, None, IfOk, length};
ghost use Rattle.text_limits.specs.declared.TheConstants.{SMALL_LIMITS};
ghost use Rattle.ltl_formula.specs.Nodes.{IsNodeIn};
ghost use Rattle.tlsf_expand.specs.FewSignals.{HasFewSignals};
ghost use Rattle.tlsf_expand.specs.FlatText.{spec_seen};
ghost use Rattle.flat_text.specs.FlatOf.{IsFlatOf};
ghost use Rattle.program_replies.specs.Statuses.{status_number};
ghost use Rattle.flat_answer.specs.Lasso.{LassoAnswers, truth_line};

use flat_lines::all_names;
use lasso_eval::holds_at;
use lasso_word::{WordFault, read_word};
use program_replies::{Reply, Status, refused_at_line, whole};
use std::alloc::{AllocError, Global};
use tlsf_expand::Spec;

/// Whether a text means so on the lasso that a word states over the text's signals: the line `true` or `false`, or the line
/// with the number of the word's first bad line. It takes the flat text that `expanded` gave.
pub fn lasso_answer(alloc: Global, spec: &Spec, word: &[u8]) -> Result<Reply, AllocError>
    requires few { HasFewSignals SMALL_LIMITS (length spec.now.inputs.items) (length spec.now.outputs.items) spec.now.formulas }
    requires stands { IsNodeIn spec.now.formulas spec.now.whole }
    ensures { (text : List ℕ) → IsFlatOf SMALL_LIMITS text None (spec_seen spec.now) → IfOk result (λ r. LassoAnswers text word.now r.bytes.items (status_number r.status)) }
{
    let names = all_names(alloc, spec)?;
    let lasso = match read_word(alloc, word, &names) {
        Ok(lasso) => lasso,
        Err(WordFault::BadLine(line)) => return refused_at_line(alloc, line),
        Err(WordFault::NoMemory) => return Err(AllocError),
    };
    let truth = holds_at(alloc, &spec.formulas, spec.whole, &lasso, 0)?;
    whole(alloc, truth_line(truth), Status::Done)
}

/// The line that tells a truth.
pub fn truth_line(is_true: bool) -> &'static [u8]
    ensures { result.now ≡ truth_line is_true }
{
    if is_true { b"true\n" } else { b"false\n" }
}

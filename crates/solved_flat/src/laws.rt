//! Laws of the answers, by which each comes exactly where it is due.
ghost use Rattle.solved_flat.specs.Laws.{ExpandSolveAnswersAreDue, LassoSolveAnswersAreDue};
ghost use Rattle.solved_flat.specs.Shown.{ShownFormulasAreTaken};

use flat_text::laws::flat_texts_are_determined;
use lasso_word::laws::readings_are_apart;
use solve_ground::laws::solve_texts_are_determined;
use tlsf_reader::laws::trees_are_determined;

/// A text has one answer to `expand --solve`: the line of its first fault with status 1 exactly where it has one, or else the text as it is taken with
/// status 0.
pub fn expand_solve_answers_are_due()
    ensures { ExpandSolveAnswersAreDue }
{
    solve_texts_are_determined();
    flat_texts_are_determined();
    trees_are_determined();
}

/// A text and a word have one answer to `lasso --solve`: the line of the text's first fault with status 1 exactly where it has one, or else that of the
/// word's first bad line with status 40 exactly where it has one, or else what the text as it is taken says of the word.
pub fn lasso_solve_answers_are_due()
    ensures { LassoSolveAnswersAreDue }
{
    solve_texts_are_determined();
    flat_texts_are_determined();
    readings_are_apart();
    trees_are_determined();
}

/// What is written of a formula is the formula as it is taken: in its shifted form, where the text is converted.
pub fn shown_formulas_are_taken()
    ensures { ShownFormulasAreTaken }
{}

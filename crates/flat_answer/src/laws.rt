//! Laws of the answers, by which each comes exactly where it is due.
ghost use Rattle.flat_answer.specs.Laws.{ExpandAnswersAreDue, LassoAnswersAreDue};

use flat_text::laws::{
    flat_faults_are_determined, flat_texts_are_determined, flat_texts_have_no_fault,
};
use lasso_word::laws::readings_are_apart;
use tlsf_reader::laws::trees_are_determined;

/// A text has one answer to `expand`: the line of its first fault with status 1 exactly where it has one, or else the flat
/// text with status 0.
pub fn expand_answers_are_due()
    ensures { ExpandAnswersAreDue }
{
    flat_faults_are_determined();
    flat_texts_are_determined();
    flat_texts_have_no_fault();
}

/// A text and a word have one answer to `lasso`: the line of the text's first fault with status 1 exactly where it has one, or
/// else that of the word's first bad line with status 40 exactly where it has one, or else what the text says of the word.
pub fn lasso_answers_are_due()
    ensures { LassoAnswersAreDue }
{
    flat_faults_are_determined();
    flat_texts_are_determined();
    flat_texts_have_no_fault();
    readings_are_apart();
    trees_are_determined();
}

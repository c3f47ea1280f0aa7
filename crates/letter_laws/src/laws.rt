//! Laws of the base clauses over all letters, each the contract of a function that does nothing.
ghost use Rattle.letter_laws.specs.Laws.{AllLettersAreExact, MetIsDecoded};

use letter_clauses::laws::{accepted_is_met, all_letters_are_version_three, unmet_has_no_accepted};
use machine_model::laws::joined_is_reached;

/// An assignment that meets a problem's base clauses over all letters stands for a machine that its side accepts.
pub fn met_is_decoded()
    ensures { MetIsDecoded }
{
    all_letters_are_version_three();
    joined_is_reached();
}

/// A problem's base clauses over all letters can be met exactly where its side accepts a machine of the problem.
pub fn all_letters_are_exact()
    ensures { AllLettersAreExact }
{
    accepted_is_met();
    unmet_has_no_accepted();
    met_is_decoded();
}

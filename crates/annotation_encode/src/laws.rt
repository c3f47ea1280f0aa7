//! Laws of the variables and of the base clauses, each the contract of a function that does nothing.
ghost use Rattle.annotation_encode.specs.Count.{SizesRise};
ghost use Rattle.annotation_encode.specs.Variables.{WholeNumbers};
ghost use Rattle.annotation_encode.specs.Laws.{AcceptedIsMet, EqualPartsHaveEqualClauses, UnmetHasNoAccepted, VariablesDiffer};

use product_bound::laws::{accepted_is_annotated, accepted_or_rejected};

/// Variables of different meaning are different.
pub fn variables_differ()
    ensures { VariablesDiffer }
{}

/// Where all rejecting states are counted in each state, each pair has one number more than the bound.
pub fn whole_numbers()
    ensures { WholeNumbers }
{}

/// Problems that say the same have the same base clauses, wherever their automata are kept.
pub fn equal_parts_have_equal_clauses()
    ensures { EqualPartsHaveEqualClauses }
{}

/// Where a side accepts some machine of a problem, some assignment meets its base clauses.
pub fn accepted_is_met()
    ensures { AcceptedIsMet }
{
    accepted_is_annotated();
}

/// Where no assignment meets a problem's base clauses, each of its machines has a run that refutes it.
pub fn unmet_has_no_accepted()
    ensures { UnmetHasNoAccepted }
{
    accepted_is_annotated();
    accepted_or_rejected();
}

/// For more states there are no fewer base clauses, so the allowed sizes are those from 1 on.
pub fn sizes_rise()
    ensures { SizesRise }
{}

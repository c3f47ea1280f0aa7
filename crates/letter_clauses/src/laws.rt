//! Laws of the base clauses over some letters, each the contract of a function that does nothing.
ghost use Rattle.letter_clauses.specs.Laws.{AcceptedIsMet, AllLettersAreVersionThree, ClosedLogsRefute, UnmetHasNoAccepted};

use machine_model::laws::components_are_classes;
use refutation_log::laws::logs_are_sound;

/// Where a side accepts some machine of a problem, some assignment meets its base clauses over any letters.
pub fn accepted_is_met()
    ensures { AcceptedIsMet }
{
    components_are_classes();
}

/// Where no assignment meets a problem's base clauses over some letters, each of its machines has a run that refutes it.
pub fn unmet_has_no_accepted()
    ensures { UnmetHasNoAccepted }
{
    components_are_classes();
}

/// Where a log is closed over a problem's base clauses over some letters, the side accepts no machine of the problem.
pub fn closed_logs_refute()
    ensures { ClosedLogsRefute }
{
    logs_are_sound();
    unmet_has_no_accepted();
}

/// Over all letters the base clauses are those of version 3.
pub fn all_letters_are_version_three()
    ensures { AllLettersAreVersionThree }
{}

//! Laws of covers. Each is the contract of a function that does nothing.

ghost use Rattle.obligation_sets.specs.CoverSignals.{CoversNameSignals};
ghost use Rattle.obligation_sets.specs.NextStep.{CoversAreTheNextStep, CoversStayNormal, LeavesGoOn};
ghost use Rattle.obligation_sets.specs.Reduced.{CutsAreExact};

/// A set holds at a position exactly where one of its covers is met there.
pub fn covers_are_the_next_step()
    ensures { CoversAreTheNextStep }
{}

/// What a cover of a set in normal form leaves to the next position is in normal form.
pub fn covers_stay_normal()
    ensures { CoversStayNormal }
{}

/// The leaves of a branch are those of what comes of its first step.
pub fn leaves_go_on()
    ensures { LeavesGoOn }
{}

/// The covers of a set name no signals but those of the list that its formulas stand in.
pub fn covers_name_signals()
    ensures { CoversNameSignals }
{}

/// Of what a leaf leaves a reduced cover leaves out exactly the formulas that one of the others implies at once.
pub fn cuts_are_exact()
    ensures { CutsAreExact }
{}

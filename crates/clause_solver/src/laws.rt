//! Laws of the definitions, each the contract of a function that does nothing.
ghost use Rattle.clause_solver.specs.Laws.{LearntClausesTeach, TeachingClausesAreNew, WorkGoesOn};

/// Where the trail is quiet below the level of the falsified clause, the learnt clause teaches.
pub fn learnt_clauses_teach()
    ensures { LearntClausesTeach }
{}

/// A clause that teaches contains no clause of the list.
pub fn teaching_clauses_are_new()
    ensures { TeachingClausesAreNew }
{}

/// A new worker works on everything, and a worker works on every longer list of entries.
pub fn work_goes_on()
    ensures { WorkGoesOn }
{}

//! Laws of the definitions, each the contract of a function that does nothing.
ghost use Rattle.unit_propagate.specs.Laws.{EmptyTrailsBegin, LongerListsKeep, GoingBackKeepsSound};

/// The empty trail is sound, and watches the first clauses of every list.
pub fn empty_trails_begin()
    ensures { EmptyTrailsBegin }
{}

/// A trail stays sound, and what it watches stays so, over every longer list of clauses.
pub fn longer_lists_keep()
    ensures { LongerListsKeep }
{}

/// Going back to a level leaves a sound trail sound.
pub fn going_back_keeps_sound()
    ensures { GoingBackKeepsSound }
{}

//! Laws of plays, and of what accepted machines mean. Each is the contract of a function that does nothing.

ghost use Rattle.side_automata.specs.Laws.{AcceptedCounterMachinesDefeat, AcceptedMachinesMake, AnswersAreApart, EveryPairHasAPlay, PlaysAreOneWord, TheDefeatedDoNotSatisfy};

/// Two plays of the same machines are the same word.
pub fn plays_are_one_word()
    ensures { PlaysAreOneWord }
{}

/// For each machine of the other kind that reads what this one writes, of any size, there is a play.
pub fn every_pair_has_a_play()
    ensures { EveryPairHasAPlay }
{}

/// A side accepts exactly the machines whose every run lasso is of the truth that its automaton doesn't accept.
pub fn accepted_machines_make()
    ensures { AcceptedMachinesMake }
{}

/// The environment's side accepts exactly the machines that defeat every machine of the system, of any size.
pub fn accepted_counter_machines_defeat()
    ensures { AcceptedCounterMachinesDefeat }
{}

/// A machine that is defeated doesn't satisfy the formula.
pub fn the_defeated_do_not_satisfy()
    ensures { TheDefeatedDoNotSatisfy }
{}

/// At most one of the answers of `problems` is right, and its automata are determined.
pub fn answers_are_apart()
    ensures { AnswersAreApart }
{}

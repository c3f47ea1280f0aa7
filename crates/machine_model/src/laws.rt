//! Laws of run lassos, of accepted words and of problems. Each is the contract of a function that does nothing.

ghost use Rattle.machine_model.specs.Laws.{EveryReadLassoHasARun, RunsAreDetermined, MooreWritesBeforeReading, RunsStayWithin, RunsUnroll, AcceptanceIsOfTheWord, AcceptanceIsOfTheReadWord};
ghost use Rattle.machine_model.specs.Components.{ComponentsAreDetermined, ComponentsClass, ComponentsCompute, JoinedIsReached};
ghost use Rattle.machine_model.specs.Counting.{CountingIsDetermined};
ghost use Rattle.machine_model.specs.Example.{ExampleAccepts};
ghost use Rattle.machine_model.specs.Problem.{EqualPartsAreAlike};

/// Every lasso of read letters is the read part, as a word, of a run lasso.
pub fn every_read_lasso_has_a_run()
    ensures { EveryReadLassoHasARun }
{}

/// Two run lassos of one machine on the same word of read letters are the same word.
pub fn runs_are_determined()
    ensures { RunsAreDetermined }
{}

/// What a Moore machine writes doesn't depend on the letter that it reads with it.
pub fn moore_writes_before_reading()
    ensures { MooreWritesBeforeReading }
{}

/// A run lasso has letters and states of the machine alone.
pub fn runs_stay_within()
    ensures { RunsStayWithin }
{}

/// A run lasso may be unrolled.
pub fn runs_unroll()
    ensures { RunsUnroll }
{}

/// A lasso that is the same word as an accepted one is accepted.
pub fn acceptance_is_of_the_word()
    ensures { AcceptanceIsOfTheWord }
{}

/// Of two run lassos on the same word of read letters, either both are accepted or none.
pub fn acceptance_is_of_the_read_word()
    ensures { AcceptanceIsOfTheReadWord }
{}

/// Problems that say the same have the same limits and look for the same machines.
pub fn equal_parts_are_alike()
    ensures { EqualPartsAreAlike }
{}

/// Two states are in one component exactly where paths lead both ways.
pub fn joined_is_reached()
    ensures { JoinedIsReached }
{}

/// Components are classes of states, and the states of one have the same number.
pub fn components_are_classes()
    ensures { ComponentsClass }
{}

/// An automaton has one list of components.
pub fn components_are_determined()
    ensures { ComponentsAreDetermined }
{}

/// An automaton has the components that are computed, and no others.
pub fn components_are_computed()
    ensures { ComponentsCompute }
{}

/// What numbers are to count in an automaton they count one way.
pub fn counting_is_determined()
    ensures { CountingIsDetermined }
{}

/// What a small automaton accepts, by the definition.
pub fn small_automaton_accepts()
    ensures { ExampleAccepts }
{}

//! Laws of what machines and circuits owe. Each is the contract of a function that does nothing.

ghost use Rattle.satisfaction.specs.Laws.{AcceptedEnvironmentsDefeat, AcceptedSystemsSatisfy, CircuitsDefeat, CircuitsSatisfy, DefeatingCannotLose, RejectedEnvironmentsCanLose};

/// The system's side accepts exactly the machines that satisfy.
pub fn accepted_systems_satisfy()
    ensures { AcceptedSystemsSatisfy }
{}

/// The environment's side accepts exactly the machines that defeat every machine of the system, of any size.
pub fn accepted_environments_defeat()
    ensures { AcceptedEnvironmentsDefeat }
{}

/// A machine of the environment with a run lasso that its automaton accepts can lose.
pub fn rejected_environments_can_lose()
    ensures { RejectedEnvironmentsCanLose }
{}

/// A machine of the environment that defeats every machine can't lose.
pub fn defeating_cannot_lose()
    ensures { DefeatingCannotLose }
{}

/// A circuit with the runs of a machine that satisfies does so too.
pub fn circuits_satisfy()
    ensures { CircuitsSatisfy }
{}

/// A circuit with the runs of a machine that defeats every machine does so too.
pub fn circuits_defeat()
    ensures { CircuitsDefeat }
{}

ghost use Rattle.std.specs.Prelude.{◌≡◌, ◌+◌, ◌*◌, ◌^◌, ◌<◌, ◌≤◌};
ghost use Rattle.text_limits.specs.declared.TheConstants.{SMALL_LIMITS};
ghost use Rattle.machine_model.specs.Automaton.{states_of};
ghost use Rattle.machine_model.specs.Problem.{IsProblem, automaton_of, writes_of};
ghost use Rattle.product_bound.specs.Annotation.{bound_at, rejecting_at, rejecting_count};
ghost use Rattle.annotation_encode.specs.BaseClauses.{row_count, row_move};
ghost use Rattle.annotation_encode.specs.Variables.{counted_before, letter_count, move_count, numbers_before, row_place, state_numbers, var_count, var_move, var_write, variables_of, write_count, write_place, write_places};

use letters_and_lassos::Kind;
use machine_model::Problem;
use machine_model::laws::components_are_classes;

/// A problem with the number of its rejecting states, which is found once.
#[derive(Clone, Copy)]
pub struct Numbering<'a> {
    pub problem: &'a Problem,
    rejecting: u32,
    ghost rejecting_is: { rejecting ≡ rejecting_count (automaton_of problem.now) },
}

impl<'a> Numbering<'a> {
    /// Takes a step for each state of the automaton.
    pub fn new(problem: &'a Problem) -> Self
        ensures { result.problem.now ≡ problem.now }
    {
        Numbering {
            problem,
            rejecting: problem.automaton.rejecting_count(),
        }
    }

    /// How many rejecting states are counted in state `q`.
    pub fn rejecting_at(&self, q: u32) -> u32
        requires problem { IsProblem self.now.problem.now }
        requires state { q < states_of (automaton_of self.now.problem.now) }
        ensures value { result ≡ rejecting_at self.now.problem.now q }
        ensures small { result ≤ SMALL_LIMITS.automaton.states }
    {
        components_are_classes();
        let _states = self.problem.automaton.states();
        match self.problem.components() {
            Some(components) => components.count(q),
            None => self.rejecting,
        }
    }

    /// How many are counted in the states before `q`, together.
    pub(crate) fn counted_before(&self, q: u32) -> u32
        requires problem { IsProblem self.now.problem.now }
        requires state { q ≤ states_of (automaton_of self.now.problem.now) }
        ensures value { result ≡ counted_before self.now.problem.now q }
        ensures small { result ≤ SMALL_LIMITS.automaton.states * q }
    {
        components_are_classes();
        let _states = self.problem.automaton.states();
        match self.problem.components() {
            Some(components) => components.before(q),
            None => q * self.rejecting,
        }
    }

    /// The greatest number that a pair of the automaton's state `q` may have.
    pub fn bound_at(&self, q: u32) -> u32
        requires problem { IsProblem self.now.problem.now }
        requires state { q < states_of (automaton_of self.now.problem.now) }
        ensures value { result ≡ bound_at self.now.problem.now q }
        ensures small { result ≤ SMALL_LIMITS.machine * SMALL_LIMITS.automaton.states }
    {
        self.problem.size * self.rejecting_at(q)
    }

    /// How many variables say, for one state of the machine, which numbers are reached in the automaton's states before `q`.
    fn numbers_before(&self, q: u32) -> u32
        requires problem { IsProblem self.now.problem.now }
        requires state { q ≤ states_of (automaton_of self.now.problem.now) }
        ensures value { result ≡ numbers_before self.now.problem.now q }
        ensures small { result ≤ 16001 * q }
    {
        self.problem.size * self.counted_before(q) + q
    }

    /// How many say so in all of them.
    fn state_numbers(&self) -> u32
        requires { IsProblem self.now.problem.now }
        ensures value { result ≡ state_numbers self.now.problem.now }
        ensures small { result ≤ 32002000 }
    {
        self.numbers_before(self.problem.automaton.states())
    }

    /// The number of variables.
    pub fn variables(&self) -> u32
        requires { IsProblem self.now.problem.now }
        ensures value { result ≡ variables_of self.now.problem.now }
        ensures small { result ≤ 2 ^ 29 }
    {
        move_count(self.problem)
            + write_count(self.problem)
            + self.problem.size * self.state_numbers()
    }

    /// The variable that says: the number of the pair is at least `c`.
    pub fn var_count(&self, pair: (u32, u32), c: u32) -> u32
        requires problem { IsProblem self.now.problem.now }
        requires state { pair.0 < self.now.problem.now.size }
        requires pair { pair.1 < states_of (automaton_of self.now.problem.now) }
        requires number { c ≤ bound_at self.now.problem.now pair.1 }
        ensures value { result ≡ var_count self.now.problem.now pair.0 pair.1 c }
        ensures some { 0 < result }
        ensures small { result ≤ 2 ^ 29 }
    {
        move_count(self.problem)
            + write_count(self.problem)
            + 1
            + pair.0 * self.state_numbers()
            + self.numbers_before(pair.1)
            + c
    }
}

/// The number of variables. Takes a step for each state of the automaton.
pub fn variables(problem: &Problem) -> u32
    requires { IsProblem problem.now }
    ensures value { result ≡ variables_of problem.now }
    ensures small { result ≤ 2 ^ 29 }
{
    Numbering::new(problem).variables()
}

/// The variable that says: in state `t` on read letter `i` the machine moves to state `to`.
pub fn var_move(problem: &Problem, t: u32, i: u32, to: u32) -> u32
    requires problem { IsProblem problem.now }
    requires state { t < problem.now.size }
    requires letter { i < letter_count problem.now }
    requires target { to < problem.now.size }
    ensures value { result ≡ var_move problem.now t i to }
    ensures some { 0 < result }
    ensures small { result ≤ 2 ^ 29 }
{
    row_move(problem, row_place(problem, t, i), to)
}

/// The same by the place of the machine's row.
pub(crate) fn row_move(problem: &Problem, place: u32, to: u32) -> u32
    requires problem { IsProblem problem.now }
    requires row { place < row_count problem.now }
    requires target { to < problem.now.size }
    ensures value { result ≡ row_move problem.now place to }
    ensures some { 0 < result }
    ensures small { result ≤ 2 ^ 29 }
{
    let _rows = row_count(problem);
    1 + place * problem.size + to
}

/// The variable that says: in state `t` on read letter `i` the machine writes signal `s`. For a Moore machine it is the
/// same for each letter.
pub fn var_write(problem: &Problem, t: u32, i: u32, s: u32) -> u32
    requires problem { IsProblem problem.now }
    requires state { t < problem.now.size }
    requires letter { i < letter_count problem.now }
    requires signal { s < writes_of problem.now }
    ensures value { result ≡ var_write problem.now t i s }
    ensures some { 0 < result }
    ensures small { result ≤ 2 ^ 29 }
{
    move_count(problem) + 1 + write_place(problem, t, i) * problem.writes() + s
}

/// The variable that says: the number of the pair (t, q) is at least `c`. Takes a step for each state of the automaton.
pub fn var_count(problem: &Problem, t: u32, q: u32, c: u32) -> u32
    requires problem { IsProblem problem.now }
    requires state { t < problem.now.size }
    requires pair { q < states_of (automaton_of problem.now) }
    requires number { c ≤ bound_at problem.now q }
    ensures value { result ≡ var_count problem.now t q c }
    ensures some { 0 < result }
    ensures small { result ≤ 2 ^ 29 }
{
    Numbering::new(problem).var_count((t, q), c)
}

/// The number of rows of a machine, one for each state and read letter.
pub fn row_count(problem: &Problem) -> u32
    requires { IsProblem problem.now }
    ensures value { result ≡ row_count problem.now }
    ensures small { result ≤ SMALL_LIMITS.machine * 2 ^ SMALL_LIMITS.signals }
{
    problem.size * letter_count(problem)
}

/// The number of letters that the machine reads.
pub fn letter_count(problem: &Problem) -> u32
    requires { IsProblem problem.now }
    ensures value { result ≡ letter_count problem.now }
    ensures some { 0 < result }
    ensures small { result ≤ 2 ^ SMALL_LIMITS.signals }
{
    1 << problem.reads()
}

/// The place of state `t` on read letter `i`.
pub(crate) fn row_place(problem: &Problem, t: u32, i: u32) -> u32
    requires problem { IsProblem problem.now }
    requires state { t < problem.now.size }
    requires letter { i < letter_count problem.now }
    ensures value { result ≡ row_place problem.now t i }
    ensures small { result < 2048 }
{
    let letters = letter_count(problem);
    t * letters + i
}

/// How many variables say where the machine moves.
pub(crate) fn move_count(problem: &Problem) -> u32
    requires { IsProblem problem.now }
    ensures value { result ≡ move_count problem.now }
    ensures small { result ≤ 16384 }
{
    row_count(problem) * problem.size
}

/// The place of what state `t` writes on read letter `i`.
fn write_place(problem: &Problem, t: u32, i: u32) -> u32
    requires problem { IsProblem problem.now }
    requires state { t < problem.now.size }
    requires letter { i < letter_count problem.now }
    ensures value { result ≡ write_place problem.now.kind (letter_count problem.now) t i }
    ensures small { result < 2048 }
{
    match problem.kind {
        Kind::Mealy => row_place(problem, t, i),
        Kind::Moore => t,
    }
}

/// How many such places there are.
fn write_places(problem: &Problem) -> u32
    requires { IsProblem problem.now }
    ensures value { result ≡ write_places problem.now.kind (letter_count problem.now) problem.now.size }
    ensures small { result ≤ 2048 }
{
    match problem.kind {
        Kind::Mealy => row_count(problem),
        Kind::Moore => problem.size,
    }
}

/// How many variables say what it writes.
pub(crate) fn write_count(problem: &Problem) -> u32
    requires { IsProblem problem.now }
    ensures value { result ≡ write_count problem.now }
    ensures small { result ≤ 16384 }
{
    write_places(problem) * problem.writes()
}

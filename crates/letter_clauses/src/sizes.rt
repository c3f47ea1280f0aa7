ghost use Rattle.std.specs.Prelude.{◌≡◌, ◌+◌, ◌*◌, ◌<◌, ◌≤◌, length};
ghost use Rattle.machine_model.specs.Automaton.{states_of};
ghost use Rattle.machine_model.specs.Components.{AreComponentsOf};
ghost use Rattle.machine_model.specs.Problem.{automaton_of, reads_of, writes_of};
ghost use Rattle.product_bound.specs.Annotation.{bound_at, leaves, rejecting_at};
ghost use Rattle.annotation_encode.specs.BaseClauses.{read_signal, row_move, written_signal};
ghost use Rattle.annotation_encode.specs.Variables.{counted_before, numbers_before, state_numbers, write_place, write_places};
ghost use Rattle.letter_clauses.specs.Letters.{IsLetterProblem, IsSmallSize};
ghost use Rattle.letter_clauses.specs.Variables.{move_count, row_count, row_place, var_count, var_move, var_write, variables_of, write_count};

use letters_and_lassos::{Kind, Side};
use machine_model::laws::components_are_classes;
use machine_model::{Components, Problem};

/// A problem whose numbers count by component, and the letters that its base clauses speak of.
#[derive(Clone, Copy)]
pub struct LetterSize<'a> {
    pub problem: &'a Problem,
    /// Letters that the problem's machines read, by rising number.
    pub letters: &'a [u32],
}

impl LetterSize<'_> {
    /// How many letters there are.
    pub(crate) fn letter_count(&self) -> u32
        requires { IsLetterProblem self.now.problem.now self.now.letters.now }
        ensures value { result ≡ length self.now.letters.now }
        ensures some { 0 < result }
        ensures small { result ≤ 65536 }
    {
        self.letters.len() as u32
    }

    /// How many rows there are, one for each state and letter.
    pub(crate) fn row_count(&self) -> u32
        requires { IsLetterProblem self.now.problem.now self.now.letters.now }
        ensures value { result ≡ row_count self.now.problem.now self.now.letters.now }
        ensures small { result ≤ 1048576 }
    {
        self.problem.size * self.letter_count()
    }

    /// The place of state `t` on the letter at place `letter`.
    pub(crate) fn row_place(&self, t: u32, letter: u32) -> u32
        requires size { IsLetterProblem self.now.problem.now self.now.letters.now }
        requires state { t < self.now.problem.now.size }
        requires letter { letter < length self.now.letters.now }
        ensures value { result ≡ row_place self.now.letters.now t letter }
        ensures within { result < row_count self.now.problem.now self.now.letters.now }
        ensures small { result < 1048576 }
    {
        let letters = self.letter_count();
        t * letters + letter
    }

    /// The variable that says: at the row at this place the machine moves to state `to`.
    pub(crate) fn row_move(&self, place: u32, to: u32) -> u32
        requires size { IsLetterProblem self.now.problem.now self.now.letters.now }
        requires row { place < row_count self.now.problem.now self.now.letters.now }
        requires target { to < self.now.problem.now.size }
        ensures value { result ≡ row_move self.now.problem.now place to }
        ensures some { 0 < result }
        ensures small { result ≤ 16777216 }
    {
        let _rows = self.row_count();
        1 + place * self.problem.size + to
    }

    /// The variable that says: in state `t` on this letter the machine moves to state `to`.
    pub(crate) fn var_move(&self, t: u32, letter: u32, to: u32) -> u32
        requires size { IsLetterProblem self.now.problem.now self.now.letters.now }
        requires state { t < self.now.problem.now.size }
        requires letter { letter < length self.now.letters.now }
        requires target { to < self.now.problem.now.size }
        ensures value { result ≡ var_move self.now.problem.now self.now.letters.now t letter to }
        ensures some { 0 < result }
        ensures small { result ≤ 16777216 }
    {
        self.row_move(self.row_place(t, letter), to)
    }

    /// How many variables say where the machine moves.
    fn move_count(&self) -> u32
        requires { IsLetterProblem self.now.problem.now self.now.letters.now }
        ensures value { result ≡ move_count self.now.problem.now self.now.letters.now }
        ensures small { result ≤ 16777216 }
    {
        self.row_count() * self.problem.size
    }

    /// The place of what state `t` writes on this letter.
    fn write_place(&self, t: u32, letter: u32) -> u32
        requires size { IsLetterProblem self.now.problem.now self.now.letters.now }
        requires state { t < self.now.problem.now.size }
        requires letter { letter < length self.now.letters.now }
        ensures value { result ≡ write_place self.now.problem.now.kind (length self.now.letters.now) t letter }
        ensures small { result < 1048576 }
    {
        match self.problem.kind {
            Kind::Mealy => self.row_place(t, letter),
            Kind::Moore => t,
        }
    }

    /// How many such places there are.
    fn write_places(&self) -> u32
        requires { IsLetterProblem self.now.problem.now self.now.letters.now }
        ensures value { result ≡ write_places self.now.problem.now.kind (length self.now.letters.now) self.now.problem.now.size }
        ensures small { result ≤ 1048576 }
    {
        match self.problem.kind {
            Kind::Mealy => self.row_count(),
            Kind::Moore => self.problem.size,
        }
    }

    /// How many variables say what the machine writes.
    fn write_count(&self) -> u32
        requires { IsLetterProblem self.now.problem.now self.now.letters.now }
        ensures value { result ≡ write_count self.now.problem.now self.now.letters.now }
        ensures small { result ≤ 16777216 }
    {
        self.write_places() * self.writes()
    }

    /// The number of signals that the machine writes.
    pub(crate) fn writes(&self) -> u32
        requires { IsLetterProblem self.now.problem.now self.now.letters.now }
        ensures value { result ≡ writes_of self.now.problem.now }
        ensures small { result ≤ 16 }
    {
        self.problem.writes()
    }

    /// The variable that says: in state `t` on this letter the machine writes signal `s`. For a Moore machine it is the same
    /// for each letter.
    pub(crate) fn var_write(&self, t: u32, letter: u32, s: u32) -> u32
        requires size { IsLetterProblem self.now.problem.now self.now.letters.now }
        requires state { t < self.now.problem.now.size }
        requires letter { letter < length self.now.letters.now }
        requires signal { s < writes_of self.now.problem.now }
        ensures value { result ≡ var_write self.now.problem.now self.now.letters.now t letter s }
        ensures some { 0 < result }
        ensures small { result ≤ 33554432 }
    {
        self.move_count() + 1 + self.write_place(t, letter) * self.writes() + s
    }

    /// The components by which numbers count.
    fn components(&self) -> &Components
        requires { IsLetterProblem self.now.problem.now self.now.letters.now }
        ensures { AreComponentsOf (automaton_of self.now.problem.now) result.now }
    {
        match self.problem.components() {
            Some(components) => components,
            None => unreachable!(),
        }
    }

    /// How many rejecting states are counted in state `q`.
    pub(crate) fn rejecting_at(&self, q: u32) -> u32
        requires size { IsLetterProblem self.now.problem.now self.now.letters.now }
        requires state { q < states_of (automaton_of self.now.problem.now) }
        ensures value { result ≡ rejecting_at self.now.problem.now q }
        ensures small { result ≤ 20000 }
    {
        components_are_classes();
        let _states = self.problem.automaton.states();
        self.components().count(q)
    }

    /// How many are counted in the states before `q`, together.
    pub(crate) fn counted_before(&self, q: u32) -> u32
        requires size { IsLetterProblem self.now.problem.now self.now.letters.now }
        requires state { q ≤ states_of (automaton_of self.now.problem.now) }
        ensures { result ≡ counted_before self.now.problem.now q }
    {
        let sum = self.components().before(q);
        sum
    }

    /// Whether numbers are counted anew at an edge from state `q` to state `r`.
    pub(crate) fn leaves(&self, q: u32, r: u32) -> bool
        requires size { IsLetterProblem self.now.problem.now self.now.letters.now }
        requires from { q < states_of (automaton_of self.now.problem.now) }
        requires to { r < states_of (automaton_of self.now.problem.now) }
        ensures { result ≡ leaves self.now.problem.now q r }
    {
        !self.components().are_joined(q, r)
    }

    /// The greatest number that a pair of the automaton's state `q` may have.
    pub(crate) fn bound_at(&self, q: u32) -> u32
        requires size { IsLetterProblem self.now.problem.now self.now.letters.now }
        requires state { q < states_of (automaton_of self.now.problem.now) }
        ensures value { result ≡ bound_at self.now.problem.now q }
        ensures small { result ≤ 320000 }
    {
        self.problem.size * self.rejecting_at(q)
    }

    /// The sum of the bounds of the states before `q`.
    fn bounds_before(&self, q: u32) -> u32
        requires size { IsSmallSize self.now.problem.now self.now.letters.now }
        requires state { q ≤ states_of (automaton_of self.now.problem.now) }
        ensures value { result ≡ self.now.problem.now.size * counted_before self.now.problem.now q }
        ensures small { result ≤ 4000000 }
    {
        self.problem.size * self.counted_before(q)
    }

    /// How many variables say, for one state of the machine, which numbers are reached in the automaton's states before `q`.
    fn numbers_before(&self, q: u32) -> u32
        requires size { IsSmallSize self.now.problem.now self.now.letters.now }
        requires state { q ≤ states_of (automaton_of self.now.problem.now) }
        ensures value { result ≡ numbers_before self.now.problem.now q }
        ensures small { result ≤ 4020000 }
    {
        self.bounds_before(q) + q
    }

    /// How many say so in all of them.
    fn state_numbers(&self) -> u32
        requires { IsSmallSize self.now.problem.now self.now.letters.now }
        ensures value { result ≡ state_numbers self.now.problem.now }
        ensures small { result ≤ 4020000 }
    {
        self.numbers_before(self.problem.automaton.states())
    }

    /// The variable that says: the number of the pair is at least `c`.
    pub(crate) fn var_count(&self, pair: (u32, u32), c: u32) -> u32
        requires size { IsSmallSize self.now.problem.now self.now.letters.now }
        requires state { pair.0 < self.now.problem.now.size }
        requires pair { pair.1 < states_of (automaton_of self.now.problem.now) }
        requires number { c ≤ bound_at self.now.problem.now pair.1 }
        ensures value { result ≡ var_count self.now.problem.now self.now.letters.now pair.0 pair.1 c }
        ensures some { 0 < result }
        ensures small { result ≤ 134217728 }
    {
        self.move_count()
            + self.write_count()
            + 1
            + pair.0 * self.state_numbers()
            + self.numbers_before(pair.1)
            + c
    }

    /// How many variables there are.
    pub(crate) fn all_variables(&self) -> u32
        requires { IsSmallSize self.now.problem.now self.now.letters.now }
        ensures value { result ≡ variables_of self.now.problem.now self.now.letters.now }
        ensures small { result ≤ 134217728 }
    {
        self.move_count() + self.write_count() + self.problem.size * self.state_numbers()
    }

    /// The signal of the problem that a read signal of the machine is.
    pub(crate) fn read_signal(&self, signal: u32) -> u32
        requires size { IsLetterProblem self.now.problem.now self.now.letters.now }
        requires signal { signal < reads_of self.now.problem.now }
        ensures { result ≡ read_signal self.now.problem.now signal }
    {
        match self.problem.side {
            Side::System => signal,
            Side::Environment => self.problem.inputs + signal,
        }
    }

    /// The signal of the problem that a written signal of the machine is.
    pub(crate) fn written_signal(&self, signal: u32) -> u32
        requires size { IsLetterProblem self.now.problem.now self.now.letters.now }
        requires signal { signal < writes_of self.now.problem.now }
        ensures { result ≡ written_signal self.now.problem.now signal }
    {
        match self.problem.side {
            Side::System => self.problem.inputs + signal,
            Side::Environment => signal,
        }
    }
}

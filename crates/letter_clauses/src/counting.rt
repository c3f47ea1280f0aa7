ghost use Rattle.std.specs.Prelude.{◌≡◌, ◌+◌, ◌*◌, ◌/◌, ◌-◌, ◌<◌, ◌≤◌, ◌||◌, length, nat_lt, if◌then◌else◌};
ghost use Rattle.machine_model.specs.Automaton.{JoinsStates, states_of};
ghost use Rattle.machine_model.specs.Problem.{automaton_of, reads_of, writes_of};
ghost use Rattle.product_bound.specs.Annotation.{rise_at};
ghost use Rattle.annotation_encode.specs.BaseClauses.{fits_read as reads_fit, step_count};
ghost use Rattle.annotation_encode.specs.Count.{target_count};
ghost use Rattle.annotation_encode.specs.Variables.{counted_before};
ghost use Rattle.letter_clauses.specs.Count.{allowed_count, chain_count, clauses_beside, count_of, fitting_letters, is_named, is_short_or_whole, literals_beside, most_clauses, most_literals, named_signals, order_count, order_literals, step_literals, steps_of};
ghost use Rattle.letter_clauses.specs.Letters.{IsLetterProblem, letter_at};
ghost use Rattle.letter_clauses.specs.Variables.{row_count};

use crate::clauses::fits_read;
use crate::sizes::LetterSize;
use letters_and_lassos::{Cube, Letter};
use machine_model::Edge;
use machine_model::laws::components_are_classes;

/// The greatest number of base clauses that is worked on.
const MOST_CLAUSES: u64 = 4_000_000;

/// The greatest number of their literals.
const MOST_LITERALS: u64 = 40_000_000;

/// The greatest number of letters of a list that hasn't all.
const MOST_LETTERS: u32 = 64;

impl LetterSize<'_> {
    /// The number of base clauses, or None where they are more than 4,000,000, have more than 40,000,000 literals, or the list
    /// has more than 64 letters and not all.
    ///
    /// The clauses aren't listed to find it: it takes as many steps as there are edges, letters and signals, multiplied. It
    /// takes no memory.
    pub fn count(&self) -> Option<u64>
        requires { IsLetterProblem self.now.problem.now self.now.letters.now }
        ensures { result ≡ count_of self.now.problem.now self.now.letters.now }
    {
        if !self.is_short_or_whole() {
            return None;
        }
        let mut clauses = self.clauses_beside();
        let mut literals = self.literals_beside();
        if are_too_many(clauses, literals) {
            return None;
        }
        let edges = self.problem.automaton.edges();
        for edge in edges {
            let steps = self.steps_of(*edge);
            clauses += in_all(steps, self.step_count(*edge));
            literals += in_all(steps, self.step_literals(*edge));
            if are_too_many(clauses, literals) {
                return None;
            }
        }
        Some(clauses)
    }

    /// Whether the list has all letters, or few enough.
    fn is_short_or_whole(&self) -> bool
        requires { IsLetterProblem self.now.problem.now self.now.letters.now }
        ensures { result ≡ is_short_or_whole (reads_of self.now.problem.now) self.now.letters.now }
    {
        let letters = self.letter_count();
        letters <= MOST_LETTERS || letters == 1 << self.problem.reads()
    }

    /// How many clauses are about no edge.
    fn clauses_beside(&self) -> u64
        requires { IsLetterProblem self.now.problem.now self.now.letters.now }
        ensures value { result ≡ clauses_beside self.now.problem.now self.now.letters.now }
        ensures small { result ≤ 103000000000 }
    {
        u64::from(self.row_count()) + 1 + self.chain_count() + self.order_count()
    }

    /// How many literals they have.
    fn literals_beside(&self) -> u64
        requires { IsLetterProblem self.now.problem.now self.now.letters.now }
        ensures value { result ≡ literals_beside self.now.problem.now self.now.letters.now }
        ensures small { result ≤ 9000000000000 }
    {
        self.row_literals() + 1 + 2 * self.chain_count() + self.order_literals()
    }

    /// How many literals say that each row moves somewhere.
    fn row_literals(&self) -> u64
        requires { IsLetterProblem self.now.problem.now self.now.letters.now }
        ensures value { result ≡ row_count self.now.problem.now self.now.letters.now * self.now.problem.now.size }
        ensures small { result ≤ 16777216 }
    {
        u64::from(self.row_count()) * u64::from(self.problem.size)
    }

    /// How many clauses chain a pair's numbers.
    fn chain_count(&self) -> u64
        requires { IsLetterProblem self.now.problem.now self.now.letters.now }
        ensures value { result ≡ chain_count self.now.problem.now }
        ensures small { result ≤ 102400000000 }
    {
        let size = u64::from(self.problem.size);
        size * (size * u64::from(self.all_counted()))
    }

    /// How many rejecting states are counted in all states, together.
    fn all_counted(&self) -> u32
        requires { IsLetterProblem self.now.problem.now self.now.letters.now }
        ensures value { result ≡ counted_before self.now.problem.now (states_of (automaton_of self.now.problem.now)) }
        ensures small { result ≤ 400000000 }
    {
        components_are_classes();
        self.counted_before(self.problem.automaton.states())
    }

    /// How many clauses order the states.
    fn order_count(&self) -> u64
        requires { IsLetterProblem self.now.problem.now self.now.letters.now }
        ensures value { result ≡ order_count self.now.problem.now self.now.letters.now }
        ensures small { result ≤ 14680064 }
    {
        u64::from(self.row_count()) * self.later_states()
    }

    /// How many literals these have.
    fn order_literals(&self) -> u64
        requires { IsLetterProblem self.now.problem.now self.now.letters.now }
        ensures value { result ≡ order_literals self.now.problem.now self.now.letters.now }
        ensures small { result ≤ 8000000000000 }
    {
        let rows = u64::from(self.row_count());
        rows * (rows + 1) / 2 * self.later_states()
    }

    /// The number of states from 2 on.
    fn later_states(&self) -> u64
        requires { IsLetterProblem self.now.problem.now self.now.letters.now }
        ensures value { result ≡ self.now.problem.now.size - 2 }
        ensures small { result ≤ 14 }
    {
        u64::from(self.problem.size.saturating_sub(2))
    }

    /// How many steps there are along an edge: from each state on each letter that fits, to each state to which it has clauses.
    fn steps_of(&self, edge: Edge) -> u64
        requires size { IsLetterProblem self.now.problem.now self.now.letters.now }
        requires edge { JoinsStates (states_of (automaton_of self.now.problem.now)) edge }
        ensures value { result ≡ steps_of self.now.problem.now self.now.letters.now edge }
        ensures small { result ≤ 16777216 }
    {
        let fitting = u64::from(self.fitting_letters(edge.cube));
        u64::from(self.problem.size) * (fitting * u64::from(self.target_count(edge)))
    }

    /// How many letters fit the cube's read signals.
    fn fitting_letters(&self, cube: Cube) -> u32
        requires { IsLetterProblem self.now.problem.now self.now.letters.now }
        ensures value { result ≡ fitting_letters self.now.problem.now self.now.letters.now cube }
        ensures small { result ≤ 65536 }
    {
        let mut fitting = 0;
        for place in 0..self.letter_count() {
            fitting += self.fitting_at(cube, place);
        }
        fitting
    }

    /// 1 where the letter at this place fits the cube's read signals, else 0.
    fn fitting_at(&self, cube: Cube, place: u32) -> u32
        requires size { IsLetterProblem self.now.problem.now self.now.letters.now }
        requires place { place < length self.now.letters.now }
        ensures value { result ≡ (if reads_fit self.now.problem.now cube (letter_at self.now.letters.now place) then 1 else 0) }
        ensures small { result ≤ 1 }
    {
        if fits_read(*self, cube, self.letters[place as usize]) {
            1
        } else {
            0
        }
    }

    /// To how many states an edge has clauses, from each state.
    fn target_count(&self, edge: Edge) -> u32
        requires size { IsLetterProblem self.now.problem.now self.now.letters.now }
        requires edge { JoinsStates (states_of (automaton_of self.now.problem.now)) edge }
        ensures value { result ≡ target_count self.now.problem.now edge }
        ensures small { result ≤ 16 }
    {
        if edge.from == edge.to && !self.problem.automaton.is_rejecting(edge.to) {
            self.problem.size - 1
        } else {
            self.problem.size
        }
    }

    /// For how many numbers a step along the edge has clauses.
    fn step_count(&self, edge: Edge) -> u64
        requires size { IsLetterProblem self.now.problem.now self.now.letters.now }
        requires edge { JoinsStates (states_of (automaton_of self.now.problem.now)) edge }
        ensures value { result ≡ step_count self.now.problem.now edge }
        ensures small { result ≤ 320001 }
    {
        if self.leaves(edge.from, edge.to) {
            1
        } else {
            u64::from(self.bound_at(edge.from)) + 1
        }
    }

    /// How many literals these have.
    fn step_literals(&self, edge: Edge) -> u64
        requires size { IsLetterProblem self.now.problem.now self.now.letters.now }
        requires edge { JoinsStates (states_of (automaton_of self.now.problem.now)) edge }
        ensures value { result ≡ step_literals self.now.problem.now edge }
        ensures small { result ≤ 7000000 }
    {
        let written = u64::from(self.named_signals(edge.cube)) + 2;
        self.step_count(edge) * written + self.allowed_count(edge)
    }

    /// For how many numbers of the pair that is left the bound allows what the next pair has to reach.
    fn allowed_count(&self, edge: Edge) -> u64
        requires size { IsLetterProblem self.now.problem.now self.now.letters.now }
        requires edge { JoinsStates (states_of (automaton_of self.now.problem.now)) edge }
        ensures value { result ≡ allowed_count self.now.problem.now edge }
        ensures small { result ≤ 320001 }
    {
        if self.leaves(edge.from, edge.to) {
            return 1;
        }
        let reached = u64::from(self.bound_at(edge.to)) + 1 - self.rise_at(edge.to);
        self.step_count(edge).min(reached)
    }

    /// How much a number rises at an edge into this state.
    fn rise_at(&self, q: u32) -> u64
        requires { q < states_of (automaton_of self.now.problem.now) }
        ensures value { result ≡ rise_at (automaton_of self.now.problem.now) q }
        ensures small { result ≤ 1 }
    {
        if self.problem.automaton.is_rejecting(q) {
            1
        } else {
            0
        }
    }

    /// How many written signals the cube names.
    fn named_signals(&self, cube: Cube) -> u32
        requires { IsLetterProblem self.now.problem.now self.now.letters.now }
        ensures value { result ≡ named_signals self.now.problem.now cube }
        ensures small { result ≤ 16 }
    {
        let mut named = 0;
        for signal in 0..self.writes() {
            named += named_signal(cube, self.written_signal(signal));
        }
        named
    }
}

/// How many so many steps have together, where each has so many.
fn in_all(steps: u64, each: u64) -> u64
    requires steps { steps ≤ 16777216 }
    requires each { each ≤ 7000000 }
    ensures value { result ≡ steps * each }
    ensures small { result ≤ 117440512000000 }
{
    steps * each
}

/// 1 where the cube wants or forbids the signal, else 0.
fn named_signal(cube: Cube, signal: u32) -> u32
    ensures value { result ≡ (if is_named cube signal then 1 else 0) }
    ensures small { result ≤ 1 }
{
    if Letter(cube.must).has(signal) || Letter(cube.not).has(signal) {
        1
    } else {
        0
    }
}

/// Whether so many clauses, or so many literals, aren't worked on.
fn are_too_many(clauses: u64, literals: u64) -> bool
    ensures { result ≡ (nat_lt most_clauses clauses || nat_lt most_literals literals) }
{
    clauses > MOST_CLAUSES || literals > MOST_LITERALS
}

ghost use Rattle.std.specs.Prelude.{◌≡◌, ◌+◌, ◌-◌, ◌*◌, ◌^◌, ◌<◌, ◌≤◌, ◌++◌, ◌∷◌, [], true, IfOk, OnOk, length};
ghost use Rattle.std.specs.List.{flat_map};
ghost use Rattle.propositional_logic.specs.Clause.{IsClause, IsFormula, IsWithinVariables};
ghost use Rattle.letters_and_lassos.specs.Below.{all_below};
ghost use Rattle.machine_model.specs.Automaton.{JoinsStates, states_of};
ghost use Rattle.machine_model.specs.Problem.{automaton_of, reads_of, writes_of};
ghost use Rattle.product_bound.specs.Annotation.{bound_at, number_after};
ghost use Rattle.annotation_encode.specs.BaseClauses.{each_below, fits_read, is_idle, isnt, order_clause, read_signal, row_clause, row_orders, signal_fits, step_count, written_signal};
ghost use Rattle.annotation_encode.specs.Laws.{HasAccepted, IsMetBySome};
ghost use Rattle.letter_clauses.specs.BaseClauses.{base_clauses, chain_clauses, count_literals, edge_clauses, letter_clauses, order_clauses, pair_chains, row_clauses, start_clause, state_chains, state_clauses, step_clauses, write_literal, write_literals};
ghost use Rattle.letter_clauses.specs.Count.{is_allowed};
ghost use Rattle.letter_clauses.specs.Letters.{IsLetterProblem, IsSmallSize, letter_at};
ghost use Rattle.letter_clauses.specs.Variables.{row_count, var_move, variables_of};

use crate::sizes::LetterSize;
use annotation_encode::number_has;
use letters_and_lassos::{Cube, Letter};
use machine_model::Edge;
use machine_model::laws::components_are_classes;
use propositional_logic::{Clause, ClauseFault, Cnf, Lit};
use std::alloc::{AllocError, Global};

impl LetterSize<'_> {
    /// The number of variables.
    #[tactic(auto, using(crate::proofs::Weights::small_size))]
    pub fn variables(&self) -> u32
        requires size { IsLetterProblem self.now.problem.now self.now.letters.now }
        requires allowed { is_allowed self.now.problem.now self.now.letters.now ≡ true }
        ensures value { result ≡ variables_of self.now.problem.now self.now.letters.now }
        ensures small { result ≤ 2 ^ 30 }
    {
        self.all_variables()
    }

    /// The base clauses over these letters, in their order.
    ///
    /// Takes time and memory for its literals alone, and for each edge as many steps as there are rows.
    #[tactic(auto, using(crate::proofs::Weights::small_size))]
    pub fn encode(&self, alloc: Global) -> Result<Cnf, AllocError>
        requires size { IsLetterProblem self.now.problem.now self.now.letters.now }
        requires allowed { is_allowed self.now.problem.now self.now.letters.now ≡ true }
        ensures vars { IfOk result (λ cnf. cnf.vars ≡ variables_of self.now.problem.now self.now.letters.now) }
        ensures clauses { IfOk result (λ cnf. cnf.clauses.items ≡ base_clauses self.now.problem.now self.now.letters.now) }
        ensures formula { IfOk result (λ cnf. IsFormula cnf.vars cnf.clauses.items) }
        ensures met { IfOk result (λ cnf. HasAccepted self.now.problem.now → IsMetBySome cnf.vars cnf.clauses.items) }
    {
        components_are_classes();
        let encoding = Encoding { alloc, size: *self };
        let _states = self.problem.automaton.states();
        let mut clauses = encoding.room()?;
        encoding.push_row_clauses(&mut clauses)?;
        encoding.push_start_clause(&mut clauses)?;
        encoding.push_edge_clauses(&mut clauses)?;
        encoding.push_chain_clauses(&mut clauses)?;
        encoding.push_order_clauses(&mut clauses)?;
        Ok(Cnf {
            vars: self.all_variables(),
            clauses,
        })
    }
}

/// A size whose clauses are listed.
#[derive(Clone, Copy)]
struct Encoding<'a> {
    alloc: Global,
    size: LetterSize<'a>,
}

impl Encoding<'_> {
    /// An empty list with room for all clauses, where the problem is within the limit on their number.
    fn room(&self) -> Result<Vec<Clause>, AllocError>
        requires { IsSmallSize self.now.size.problem.now self.now.size.letters.now }
        ensures { IfOk result (λ clauses. clauses.items ≡ []) }
    {
        match self.size.count() {
            Some(number) => Vec::with_capacity(self.alloc, number as usize),
            None => Ok(Vec::new(self.alloc)),
        }
    }

    /// Adds a clause, whose literals stand by rising variable.
    fn push_clause(&self, lits: &[Lit], clauses: &mut Vec<Clause>) -> Result<(), AllocError>
        requires problem { IsSmallSize self.now.size.problem.now self.now.size.letters.now }
        requires clause { IsClause lits.now }
        requires within { IsWithinVariables (variables_of self.now.size.problem.now self.now.size.letters.now) lits.now }
        ensures { OnOk result (clauses.new.items ≡ clauses.old.items ++ lits.now ∷ []) }
    {
        match Clause::new(self.alloc, self.size.all_variables(), lits) {
            Ok(clause) => {
                clauses.push(clause)?;
                Ok(())
            }
            Err(ClauseFault::NoMemory) => Err(AllocError),
            Err(ClauseFault::BadVariable) => unreachable!(),
            Err(ClauseFault::Tautology) => unreachable!(),
        }
    }

    /// From each row the machine moves to some state.
    fn push_row_clauses(&self, clauses: &mut Vec<Clause>) -> Result<(), AllocError>
        requires { IsSmallSize self.now.size.problem.now self.now.size.letters.now }
        ensures { OnOk result (clauses.new.items ≡ clauses.old.items ++ row_clauses self.now.size.problem.now self.now.size.letters.now) }
    {
        for place in 0..self.size.row_count() {
            let lits = self.row_literals(place)?;
            self.push_clause(&lits, clauses)?;
        }
        Ok(())
    }

    fn row_literals(&self, place: u32) -> Result<Vec<Lit>, AllocError>
        requires problem { IsSmallSize self.now.size.problem.now self.now.size.letters.now }
        requires row { place < row_count self.now.size.problem.now self.now.size.letters.now }
        ensures { IfOk result (λ lits. lits.items ≡ row_clause self.now.size.problem.now place) }
    {
        let mut lits = Vec::with_capacity(self.alloc, self.size.problem.size as usize)?;
        for to in 0..self.size.problem.size {
            lits.push(Lit::new(self.size.row_move(place, to), true))?;
        }
        Ok(lits)
    }

    /// The first pair has a number.
    fn push_start_clause(&self, clauses: &mut Vec<Clause>) -> Result<(), AllocError>
        requires { IsSmallSize self.now.size.problem.now self.now.size.letters.now }
        ensures { OnOk result (clauses.new.items ≡ clauses.old.items ++ start_clause self.now.size.problem.now self.now.size.letters.now ∷ []) }
    {
        let _states = self.size.problem.automaton.states();
        let start = Lit::new(self.size.var_count((0, 0), 0), true);
        self.push_clause(&[start], clauses)
    }

    /// The least number behind an edge from a pair with this number.
    fn number_after(&self, edge: Edge, number: u32) -> u32
        requires problem { IsSmallSize self.now.size.problem.now self.now.size.letters.now }
        requires edge { JoinsStates (states_of (automaton_of self.now.size.problem.now)) edge }
        requires number { number ≤ 2 ^ 29 }
        ensures { result ≡ number_after self.now.size.problem.now edge.from edge.to number }
    {
        if self.size.leaves(edge.from, edge.to) {
            return 0;
        }
        if self.size.problem.automaton.is_rejecting(edge.to) {
            number + 1
        } else {
            number
        }
    }

    /// Along each edge numbers don't fall, and rise into a rejecting state.
    fn push_edge_clauses(&self, clauses: &mut Vec<Clause>) -> Result<(), AllocError>
        requires { IsSmallSize self.now.size.problem.now self.now.size.letters.now }
        ensures { OnOk result (clauses.new.items ≡ clauses.old.items ++ flat_map (edge_clauses self.now.size.problem.now self.now.size.letters.now) (automaton_of self.now.size.problem.now).edges) }
    {
        let edges = self.size.problem.automaton.edges();
        for edge in edges {
            self.push_clauses_of_edge(*edge, clauses)?;
        }
        Ok(())
    }

    fn push_clauses_of_edge(&self, edge: Edge, clauses: &mut Vec<Clause>) -> Result<(), AllocError>
        requires problem { IsSmallSize self.now.size.problem.now self.now.size.letters.now }
        requires edge { JoinsStates (states_of (automaton_of self.now.size.problem.now)) edge }
        ensures { OnOk result (clauses.new.items ≡ clauses.old.items ++ edge_clauses self.now.size.problem.now self.now.size.letters.now edge) }
    {
        for t in 0..self.size.problem.size {
            self.push_clauses_of_state(edge, t, clauses)?;
        }
        Ok(())
    }

    fn push_clauses_of_state(
        &self,
        edge: Edge,
        t: u32,
        clauses: &mut Vec<Clause>,
    ) -> Result<(), AllocError>
        requires problem { IsSmallSize self.now.size.problem.now self.now.size.letters.now }
        requires edge { JoinsStates (states_of (automaton_of self.now.size.problem.now)) edge }
        requires state { t < self.now.size.problem.now.size }
        ensures { OnOk result (clauses.new.items ≡ clauses.old.items ++ state_clauses self.now.size.problem.now self.now.size.letters.now edge t) }
    {
        for letter in 0..self.size.letter_count() {
            self.push_clauses_of_letter(edge, t, letter, clauses)?;
        }
        Ok(())
    }

    fn push_clauses_of_letter(
        &self,
        edge: Edge,
        t: u32,
        letter: u32,
        clauses: &mut Vec<Clause>,
    ) -> Result<(), AllocError>
        requires problem { IsSmallSize self.now.size.problem.now self.now.size.letters.now }
        requires edge { JoinsStates (states_of (automaton_of self.now.size.problem.now)) edge }
        requires state { t < self.now.size.problem.now.size }
        requires letter { letter < length self.now.size.letters.now }
        ensures { OnOk result (clauses.new.items ≡ clauses.old.items ++ letter_clauses self.now.size.problem.now self.now.size.letters.now edge t letter) }
    {
        if !fits_read(self.size, edge.cube, self.size.letters[letter as usize]) {
            return Ok(());
        }
        for to in 0..self.size.problem.size {
            self.push_clauses_of_step(edge, t, letter, to, clauses)?;
        }
        Ok(())
    }

    fn push_clauses_of_step(
        &self,
        edge: Edge,
        t: u32,
        letter: u32,
        to: u32,
        clauses: &mut Vec<Clause>,
    ) -> Result<(), AllocError>
        requires problem { IsSmallSize self.now.size.problem.now self.now.size.letters.now }
        requires edge { JoinsStates (states_of (automaton_of self.now.size.problem.now)) edge }
        requires state { t < self.now.size.problem.now.size }
        requires letter { letter < length self.now.size.letters.now }
        requires target { to < self.now.size.problem.now.size }
        ensures { OnOk result (clauses.new.items ≡ clauses.old.items ++ step_clauses self.now.size.problem.now self.now.size.letters.now edge t letter to) }
    {
        if self.is_idle(edge, t, to) {
            return Ok(());
        }
        let mut lits = self.shared_literals(edge.cube, t, letter, to)?;
        let shared = lits.len();
        for count in 0..self.step_count(edge) {
            self.push_count_literals(edge, t, to, count, &mut lits)?;
            self.push_clause(&lits, clauses)?;
            lits.truncate(shared);
        }
        Ok(())
    }

    /// Whether the edge leads from a pair to itself, and not into a rejecting state.
    fn is_idle(&self, edge: Edge, t: u32, to: u32) -> bool
        requires { JoinsStates (states_of (automaton_of self.now.size.problem.now)) edge }
        ensures { result ≡ is_idle self.now.size.problem.now edge t to }
    {
        t == to && (edge.from == edge.to && !self.size.problem.automaton.is_rejecting(edge.to))
    }

    /// For how many numbers a step along the edge has clauses.
    fn step_count(&self, edge: Edge) -> u32
        requires problem { IsSmallSize self.now.size.problem.now self.now.size.letters.now }
        requires edge { JoinsStates (states_of (automaton_of self.now.size.problem.now)) edge }
        ensures { result ≡ step_count self.now.size.problem.now edge }
    {
        if self.size.leaves(edge.from, edge.to) {
            1
        } else {
            self.size.bound_at(edge.from) + 1
        }
    }

    /// The literals that a step's clauses have in common, whatever their number.
    fn shared_literals(
        &self,
        cube: Cube,
        t: u32,
        letter: u32,
        to: u32,
    ) -> Result<Vec<Lit>, AllocError>
        requires problem { IsSmallSize self.now.size.problem.now self.now.size.letters.now }
        requires state { t < self.now.size.problem.now.size }
        requires letter { letter < length self.now.size.letters.now }
        requires target { to < self.now.size.problem.now.size }
        ensures { IfOk result (λ lits. lits.items ≡ isnt (var_move self.now.size.problem.now self.now.size.letters.now t letter to) ∷ write_literals self.now.size.problem.now self.now.size.letters.now cube t letter) }
    {
        let mut lits = Vec::with_capacity(self.alloc, 19)?;
        lits.push(Lit::new(self.size.var_move(t, letter, to), false))?;
        self.push_write_literals(cube, t, letter, &mut lits)?;
        Ok(lits)
    }

    /// The machine writes what misses the cube.
    fn push_write_literals(
        &self,
        cube: Cube,
        t: u32,
        letter: u32,
        lits: &mut Vec<Lit>,
    ) -> Result<(), AllocError>
        requires problem { IsSmallSize self.now.size.problem.now self.now.size.letters.now }
        requires state { t < self.now.size.problem.now.size }
        requires letter { letter < length self.now.size.letters.now }
        ensures { OnOk result (lits.new.items ≡ lits.old.items ++ write_literals self.now.size.problem.now self.now.size.letters.now cube t letter) }
    {
        for signal in 0..self.size.writes() {
            self.push_write_literal(cube, t, letter, signal, lits)?;
        }
        Ok(())
    }

    fn push_write_literal(
        &self,
        cube: Cube,
        t: u32,
        letter: u32,
        signal: u32,
        lits: &mut Vec<Lit>,
    ) -> Result<(), AllocError>
        requires problem { IsSmallSize self.now.size.problem.now self.now.size.letters.now }
        requires state { t < self.now.size.problem.now.size }
        requires letter { letter < length self.now.size.letters.now }
        requires signal { signal < writes_of self.now.size.problem.now }
        ensures { OnOk result (lits.new.items ≡ lits.old.items ++ write_literal self.now.size.problem.now self.now.size.letters.now cube t letter signal) }
    {
        let var = self.size.var_write(t, letter, signal);
        let whole = self.size.written_signal(signal);
        if Letter(cube.must).has(whole) {
            lits.push(Lit::new(var, false))?;
            return Ok(());
        }
        if Letter(cube.not).has(whole) {
            lits.push(Lit::new(var, true))?;
        }
        Ok(())
    }

    /// The pair that is left doesn't reach the number, or the one after it reaches what it has to.
    fn push_count_literals(
        &self,
        edge: Edge,
        t: u32,
        to: u32,
        count: u32,
        lits: &mut Vec<Lit>,
    ) -> Result<(), AllocError>
        requires problem { IsSmallSize self.now.size.problem.now self.now.size.letters.now }
        requires edge { JoinsStates (states_of (automaton_of self.now.size.problem.now)) edge }
        requires state { t < self.now.size.problem.now.size }
        requires target { to < self.now.size.problem.now.size }
        requires number { count ≤ bound_at self.now.size.problem.now edge.from }
        ensures { OnOk result (lits.new.items ≡ lits.old.items ++ count_literals self.now.size.problem.now self.now.size.letters.now edge t to count) }
    {
        let left = self.size.var_count((t, edge.from), count);
        let after = self.number_after(edge, count);
        if after > self.size.bound_at(edge.to) {
            lits.push(Lit::new(left, false))?;
            return Ok(());
        }
        let reached = self.size.var_count((to, edge.to), after);
        if left < reached {
            lits.push(Lit::new(left, false))?;
            lits.push(Lit::new(reached, true))?;
        } else {
            lits.push(Lit::new(reached, true))?;
            lits.push(Lit::new(left, false))?;
        }
        Ok(())
    }

    /// A pair that reaches a number reaches the one before it.
    fn push_chain_clauses(&self, clauses: &mut Vec<Clause>) -> Result<(), AllocError>
        requires { IsSmallSize self.now.size.problem.now self.now.size.letters.now }
        ensures { OnOk result (clauses.new.items ≡ clauses.old.items ++ chain_clauses self.now.size.problem.now self.now.size.letters.now) }
    {
        for t in 0..self.size.problem.size {
            self.push_chains_of_state(t, clauses)?;
        }
        Ok(())
    }

    fn push_chains_of_state(&self, t: u32, clauses: &mut Vec<Clause>) -> Result<(), AllocError>
        requires problem { IsSmallSize self.now.size.problem.now self.now.size.letters.now }
        requires state { t < self.now.size.problem.now.size }
        ensures { OnOk result (clauses.new.items ≡ clauses.old.items ++ state_chains self.now.size.problem.now self.now.size.letters.now t) }
    {
        for q in 0..self.size.problem.automaton.states() {
            self.push_chains_of_pair(t, q, clauses)?;
        }
        Ok(())
    }

    fn push_chains_of_pair(
        &self,
        t: u32,
        q: u32,
        clauses: &mut Vec<Clause>,
    ) -> Result<(), AllocError>
        requires problem { IsSmallSize self.now.size.problem.now self.now.size.letters.now }
        requires state { t < self.now.size.problem.now.size }
        requires pair { q < states_of (automaton_of self.now.size.problem.now) }
        ensures { OnOk result (clauses.new.items ≡ clauses.old.items ++ pair_chains self.now.size.problem.now self.now.size.letters.now t q) }
    {
        for count in 0..self.size.bound_at(q) {
            let before = Lit::new(self.size.var_count((t, q), count), true);
            let reached = Lit::new(self.size.var_count((t, q), count + 1), false);
            self.push_clause(&[before, reached], clauses)?;
        }
        Ok(())
    }

    /// States are named in the order of their numbers.
    fn push_order_clauses(&self, clauses: &mut Vec<Clause>) -> Result<(), AllocError>
        requires { IsSmallSize self.now.size.problem.now self.now.size.letters.now }
        ensures { OnOk result (clauses.new.items ≡ clauses.old.items ++ order_clauses self.now.size.problem.now self.now.size.letters.now) }
    {
        for place in 0..self.size.row_count() {
            self.push_orders_of_row(place, clauses)?;
        }
        Ok(())
    }

    fn push_orders_of_row(&self, place: u32, clauses: &mut Vec<Clause>) -> Result<(), AllocError>
        requires problem { IsSmallSize self.now.size.problem.now self.now.size.letters.now }
        requires row { place < row_count self.now.size.problem.now self.now.size.letters.now }
        ensures { OnOk result (clauses.new.items ≡ clauses.old.items ++ row_orders self.now.size.problem.now place) }
    {
        for more in 0..self.size.problem.size.saturating_sub(2) {
            let lits = self.order_literals(place, more + 2)?;
            self.push_clause(&lits, clauses)?;
        }
        Ok(())
    }

    fn order_literals(&self, place: u32, to: u32) -> Result<Vec<Lit>, AllocError>
        requires problem { IsSmallSize self.now.size.problem.now self.now.size.letters.now }
        requires row { place < row_count self.now.size.problem.now self.now.size.letters.now }
        requires from_two { 2 ≤ to }
        requires target { to < self.now.size.problem.now.size }
        ensures { IfOk result (λ lits. lits.items ≡ order_clause self.now.size.problem.now place to) }
    {
        let mut lits = Vec::with_capacity(self.alloc, place as usize + 1)?;
        for before in 0..place {
            lits.push(Lit::new(self.size.row_move(before, to - 1), true))?;
        }
        lits.push(Lit::new(self.size.row_move(place, to), false))?;
        Ok(lits)
    }
}

/// Whether a read letter fits the cube's read signals.
pub(crate) fn fits_read(size: LetterSize<'_>, cube: Cube, letter: u32) -> bool
    requires { IsLetterProblem size.problem.now size.letters.now }
    ensures { result ≡ fits_read size.entry.problem.now cube letter }
{
    for signal in 0..size.problem.reads() {
        let whole = size.read_signal(signal);
        if !signal_fits(cube, whole, number_has(letter, signal)) {
            return false;
        }
    }
    true
}

/// Whether a signal that is set, or isn't, is as the cube wants it.
fn signal_fits(cube: Cube, signal: u32, is_set: bool) -> bool
    ensures { result ≡ signal_fits cube signal is_set }
{
    if is_set {
        !Letter(cube.not).has(signal)
    } else {
        !Letter(cube.must).has(signal)
    }
}

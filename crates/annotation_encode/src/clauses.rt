ghost use Rattle.letters_and_lassos.specs.Signals.{has};
ghost use Rattle.std.specs.Prelude.{◌≡◌, ◌+◌, ◌-◌, ◌*◌, ◌^◌, ◌<◌, ◌≤◌, ◌++◌, ◌∷◌, [], IfOk, OnOk};
ghost use Rattle.std.specs.List.{flat_map};
ghost use Rattle.propositional_logic.specs.Clause.{IsClause, IsFormula, IsWithinVariables};
ghost use Rattle.machine_model.specs.Automaton.{JoinsStates, states_of};
ghost use Rattle.machine_model.specs.Problem.{IsProblem, automaton_of, reads_of, writes_of};
ghost use Rattle.product_bound.specs.Annotation.{bound_at, number_after, start_number};
ghost use Rattle.annotation_encode.specs.BaseClauses.{base_clauses, chain_clauses, count_literals, each_below, edge_clauses, fits_read, is_idle, isnt, letter_clauses, order_clause, order_clauses, pair_chains, row_clause, row_clauses, row_count, read_signal, row_orders, signal_fits, start_clause, state_chains, state_clauses, step_clauses, step_count, write_literal, write_literals, written_signal};
ghost use Rattle.letters_and_lassos.specs.Below.{all_below};
ghost use Rattle.annotation_encode.specs.Laws.{HasAccepted, IsMetBySome};
ghost use Rattle.annotation_encode.specs.Variables.{letter_count, row_place, var_move, variables_of};

use crate::counting::count;
use crate::numbering::{Numbering, letter_count, row_count, row_move, var_move, var_write};
use letters_and_lassos::{Cube, Letter, Side};
use machine_model::{Edge, Problem};
use product_bound::laws::accepted_is_annotated;
use product_bound::leaves;
use propositional_logic::{Clause, ClauseFault, Cnf, Lit};
use std::alloc::{AllocError, Global};

/// The base clauses of a problem, in their order.
///
/// Takes time and memory for its literals alone, and for each edge as many steps as there are rows of a machine.
pub fn encode(alloc: Global, problem: &Problem) -> Result<Cnf, AllocError>
    requires { IsProblem problem.now }
    ensures vars { IfOk result (λ cnf. cnf.vars ≡ variables_of problem.now) }
    ensures clauses { IfOk result (λ cnf. cnf.clauses.items ≡ base_clauses problem.now) }
    ensures formula { IfOk result (λ cnf. IsFormula cnf.vars cnf.clauses.items) }
    ensures met { IfOk result (λ cnf. HasAccepted problem.now → IsMetBySome cnf.vars cnf.clauses.items) }
{
    let encoding = Encoding {
        alloc,
        numbering: Numbering::new(problem),
    };
    accepted_is_annotated();
    let _states = problem.automaton.states();
    let mut clauses = encoding.room()?;
    encoding.push_row_clauses(&mut clauses)?;
    encoding.push_start_clause(&mut clauses)?;
    encoding.push_edge_clauses(&mut clauses)?;
    encoding.push_chain_clauses(&mut clauses)?;
    encoding.push_order_clauses(&mut clauses)?;
    Ok(Cnf {
        vars: encoding.numbering.variables(),
        clauses,
    })
}

/// A problem whose clauses are listed, with its variables.
#[derive(Clone, Copy)]
struct Encoding<'a> {
    alloc: Global,
    numbering: Numbering<'a>,
}

impl Encoding<'_> {
    /// An empty list with room for all clauses, where the problem is within the limit on their number.
    fn room(&self) -> Result<Vec<Clause>, AllocError>
        requires { IsProblem self.now.numbering.problem.now }
        ensures { IfOk result (λ clauses. clauses.items ≡ []) }
    {
        match count(self.numbering.problem) {
            Some(number) => Vec::with_capacity(self.alloc, number as usize),
            None => Ok(Vec::new(self.alloc)),
        }
    }

    /// Adds a clause, whose literals stand by rising variable.
    fn push_clause(&self, lits: &[Lit], clauses: &mut Vec<Clause>) -> Result<(), AllocError>
        requires problem { IsProblem self.now.numbering.problem.now }
        requires clause { IsClause lits.now }
        requires within { IsWithinVariables (variables_of self.now.numbering.problem.now) lits.now }
        ensures { OnOk result (clauses.new.items ≡ clauses.old.items ++ lits.now ∷ []) }
    {
        match Clause::new(self.alloc, self.numbering.variables(), lits) {
            Ok(clause) => {
                clauses.push(clause)?;
                Ok(())
            }
            Err(ClauseFault::NoMemory) => Err(AllocError),
            Err(ClauseFault::BadVariable) => unreachable!(),
            Err(ClauseFault::Tautology) => unreachable!(),
        }
    }

    /// From each row the machine moves to some state.
    fn push_row_clauses(&self, clauses: &mut Vec<Clause>) -> Result<(), AllocError>
        requires { IsProblem self.now.numbering.problem.now }
        ensures { OnOk result (clauses.new.items ≡ clauses.old.items ++ row_clauses self.now.numbering.problem.now) }
    {
        for place in 0..row_count(self.numbering.problem) {
            let lits = self.row_literals(place)?;
            self.push_clause(&lits, clauses)?;
        }
        Ok(())
    }

    fn row_literals(&self, place: u32) -> Result<Vec<Lit>, AllocError>
        requires problem { IsProblem self.now.numbering.problem.now }
        requires row { place < row_count self.now.numbering.problem.now }
        ensures { IfOk result (λ lits. lits.items ≡ row_clause self.now.numbering.problem.now place) }
    {
        let mut lits = Vec::with_capacity(self.alloc, self.numbering.problem.size as usize)?;
        for to in 0..self.numbering.problem.size {
            lits.push(Lit::new(row_move(self.numbering.problem, place, to), true))?;
        }
        Ok(lits)
    }

    /// The first pair has a number, which counts the start where it is rejecting and all rejecting states are counted.
    fn push_start_clause(&self, clauses: &mut Vec<Clause>) -> Result<(), AllocError>
        requires { IsProblem self.now.numbering.problem.now }
        ensures { OnOk result (clauses.new.items ≡ clauses.old.items ++ start_clause self.now.numbering.problem.now ∷ []) }
    {
        let _states = self.numbering.problem.automaton.states();
        let number = self.start_number();
        let start = Lit::new(self.numbering.var_count((0, 0), number), true);
        self.push_clause(&[start], clauses)
    }

    fn start_number(&self) -> u32
        requires { 0 < states_of (automaton_of self.now.numbering.problem.now) }
        ensures { result ≡ start_number self.now.numbering.problem.now }
    {
        if !self.numbering.problem.counting.is_local()
            && self.numbering.problem.automaton.is_rejecting(0)
        {
            1
        } else {
            0
        }
    }

    /// The least number behind an edge from a pair with this number.
    fn number_after(&self, edge: Edge, number: u32) -> u32
        requires problem { IsProblem self.now.numbering.problem.now }
        requires edge { JoinsStates (states_of (automaton_of self.now.numbering.problem.now)) edge }
        requires number { number ≤ 2 ^ 29 }
        ensures { result ≡ number_after self.now.numbering.problem.now edge.from edge.to number }
    {
        if leaves(self.numbering.problem, edge.from, edge.to) {
            return 0;
        }
        if self.numbering.problem.automaton.is_rejecting(edge.to) {
            number + 1
        } else {
            number
        }
    }

    /// Along each edge numbers don't fall, and rise into a rejecting state.
    fn push_edge_clauses(&self, clauses: &mut Vec<Clause>) -> Result<(), AllocError>
        requires { IsProblem self.now.numbering.problem.now }
        ensures { OnOk result (clauses.new.items ≡ clauses.old.items ++ flat_map (edge_clauses self.now.numbering.problem.now) (automaton_of self.now.numbering.problem.now).edges) }
    {
        let edges = self.numbering.problem.automaton.edges();
        for edge in edges {
            self.push_clauses_of_edge(*edge, clauses)?;
        }
        Ok(())
    }

    fn push_clauses_of_edge(&self, edge: Edge, clauses: &mut Vec<Clause>) -> Result<(), AllocError>
        requires problem { IsProblem self.now.numbering.problem.now }
        requires edge { JoinsStates (states_of (automaton_of self.now.numbering.problem.now)) edge }
        ensures { OnOk result (clauses.new.items ≡ clauses.old.items ++ edge_clauses self.now.numbering.problem.now edge) }
    {
        for t in 0..self.numbering.problem.size {
            self.push_clauses_of_state(edge, t, clauses)?;
        }
        Ok(())
    }

    fn push_clauses_of_state(
        &self,
        edge: Edge,
        t: u32,
        clauses: &mut Vec<Clause>,
    ) -> Result<(), AllocError>
        requires problem { IsProblem self.now.numbering.problem.now }
        requires edge { JoinsStates (states_of (automaton_of self.now.numbering.problem.now)) edge }
        requires state { t < self.now.numbering.problem.now.size }
        ensures { OnOk result (clauses.new.items ≡ clauses.old.items ++ state_clauses self.now.numbering.problem.now edge t) }
    {
        for letter in 0..letter_count(self.numbering.problem) {
            self.push_clauses_of_letter(edge, t, letter, clauses)?;
        }
        Ok(())
    }

    fn push_clauses_of_letter(
        &self,
        edge: Edge,
        t: u32,
        letter: u32,
        clauses: &mut Vec<Clause>,
    ) -> Result<(), AllocError>
        requires problem { IsProblem self.now.numbering.problem.now }
        requires edge { JoinsStates (states_of (automaton_of self.now.numbering.problem.now)) edge }
        requires state { t < self.now.numbering.problem.now.size }
        requires letter { letter < letter_count self.now.numbering.problem.now }
        ensures { OnOk result (clauses.new.items ≡ clauses.old.items ++ letter_clauses self.now.numbering.problem.now edge t letter) }
    {
        if !fits_read(self.numbering.problem, edge.cube, letter) {
            return Ok(());
        }
        for to in 0..self.numbering.problem.size {
            self.push_clauses_of_step(edge, t, letter, to, clauses)?;
        }
        Ok(())
    }

    fn push_clauses_of_step(
        &self,
        edge: Edge,
        t: u32,
        letter: u32,
        to: u32,
        clauses: &mut Vec<Clause>,
    ) -> Result<(), AllocError>
        requires problem { IsProblem self.now.numbering.problem.now }
        requires edge { JoinsStates (states_of (automaton_of self.now.numbering.problem.now)) edge }
        requires state { t < self.now.numbering.problem.now.size }
        requires letter { letter < letter_count self.now.numbering.problem.now }
        requires target { to < self.now.numbering.problem.now.size }
        ensures { OnOk result (clauses.new.items ≡ clauses.old.items ++ step_clauses self.now.numbering.problem.now edge t letter to) }
    {
        if self.is_idle(edge, t, to) {
            return Ok(());
        }
        let mut lits = self.shared_literals(edge.cube, t, letter, to)?;
        let shared = lits.len();
        for count in 0..self.step_count(edge) {
            self.push_count_literals(edge, t, to, count, &mut lits)?;
            self.push_clause(&lits, clauses)?;
            lits.truncate(shared);
        }
        Ok(())
    }

    /// Whether the edge leads from a pair to itself, and not into a rejecting state.
    fn is_idle(&self, edge: Edge, t: u32, to: u32) -> bool
        requires { JoinsStates (states_of (automaton_of self.now.numbering.problem.now)) edge }
        ensures { result ≡ is_idle self.now.numbering.problem.now edge t to }
    {
        t == to && (edge.from == edge.to && !self.numbering.problem.automaton.is_rejecting(edge.to))
    }

    /// For how many numbers a step along the edge has clauses.
    fn step_count(&self, edge: Edge) -> u32
        requires problem { IsProblem self.now.numbering.problem.now }
        requires edge { JoinsStates (states_of (automaton_of self.now.numbering.problem.now)) edge }
        ensures { result ≡ step_count self.now.numbering.problem.now edge }
    {
        if leaves(self.numbering.problem, edge.from, edge.to) {
            1
        } else {
            self.numbering.bound_at(edge.from) + 1
        }
    }

    /// The literals that a step's clauses have in common, whatever their number.
    fn shared_literals(
        &self,
        cube: Cube,
        t: u32,
        letter: u32,
        to: u32,
    ) -> Result<Vec<Lit>, AllocError>
        requires problem { IsProblem self.now.numbering.problem.now }
        requires state { t < self.now.numbering.problem.now.size }
        requires letter { letter < letter_count self.now.numbering.problem.now }
        requires target { to < self.now.numbering.problem.now.size }
        ensures { IfOk result (λ lits. lits.items ≡ isnt (var_move self.now.numbering.problem.now t letter to) ∷ write_literals self.now.numbering.problem.now cube t letter) }
    {
        let mut lits = Vec::with_capacity(self.alloc, 11)?;
        lits.push(Lit::new(var_move(self.numbering.problem, t, letter, to), false))?;
        self.push_write_literals(cube, t, letter, &mut lits)?;
        Ok(lits)
    }

    /// The machine writes what misses the cube.
    fn push_write_literals(
        &self,
        cube: Cube,
        t: u32,
        letter: u32,
        lits: &mut Vec<Lit>,
    ) -> Result<(), AllocError>
        requires problem { IsProblem self.now.numbering.problem.now }
        requires state { t < self.now.numbering.problem.now.size }
        requires letter { letter < letter_count self.now.numbering.problem.now }
        ensures { OnOk result (lits.new.items ≡ lits.old.items ++ write_literals self.now.numbering.problem.now cube t letter) }
    {
        for signal in 0..self.numbering.problem.writes() {
            self.push_write_literal(cube, t, letter, signal, lits)?;
        }
        Ok(())
    }

    fn push_write_literal(
        &self,
        cube: Cube,
        t: u32,
        letter: u32,
        signal: u32,
        lits: &mut Vec<Lit>,
    ) -> Result<(), AllocError>
        requires problem { IsProblem self.now.numbering.problem.now }
        requires state { t < self.now.numbering.problem.now.size }
        requires letter { letter < letter_count self.now.numbering.problem.now }
        requires signal { signal < writes_of self.now.numbering.problem.now }
        ensures { OnOk result (lits.new.items ≡ lits.old.items ++ write_literal self.now.numbering.problem.now cube t letter signal) }
    {
        let var = var_write(self.numbering.problem, t, letter, signal);
        let whole = written_signal(self.numbering.problem, signal);
        if Letter(cube.must).has(whole) {
            lits.push(Lit::new(var, false))?;
            return Ok(());
        }
        if Letter(cube.not).has(whole) {
            lits.push(Lit::new(var, true))?;
        }
        Ok(())
    }

    /// The pair that is left doesn't reach the number, or the one after it reaches what it has to.
    fn push_count_literals(
        &self,
        edge: Edge,
        t: u32,
        to: u32,
        count: u32,
        lits: &mut Vec<Lit>,
    ) -> Result<(), AllocError>
        requires problem { IsProblem self.now.numbering.problem.now }
        requires edge { JoinsStates (states_of (automaton_of self.now.numbering.problem.now)) edge }
        requires state { t < self.now.numbering.problem.now.size }
        requires target { to < self.now.numbering.problem.now.size }
        requires number { count ≤ bound_at self.now.numbering.problem.now edge.from }
        ensures { OnOk result (lits.new.items ≡ lits.old.items ++ count_literals self.now.numbering.problem.now edge t to count) }
    {
        let left = self.numbering.var_count((t, edge.from), count);
        let after = self.number_after(edge, count);
        if after > self.numbering.bound_at(edge.to) {
            lits.push(Lit::new(left, false))?;
            return Ok(());
        }
        let reached = self.numbering.var_count((to, edge.to), after);
        if left < reached {
            lits.push(Lit::new(left, false))?;
            lits.push(Lit::new(reached, true))?;
        } else {
            lits.push(Lit::new(reached, true))?;
            lits.push(Lit::new(left, false))?;
        }
        Ok(())
    }

    /// Where numbers count by component a pair that reaches a number reaches the one before it.
    fn push_chain_clauses(&self, clauses: &mut Vec<Clause>) -> Result<(), AllocError>
        requires { IsProblem self.now.numbering.problem.now }
        ensures { OnOk result (clauses.new.items ≡ clauses.old.items ++ chain_clauses self.now.numbering.problem.now) }
    {
        if !self.numbering.problem.counting.is_local() {
            return Ok(());
        }
        for t in 0..self.numbering.problem.size {
            self.push_chains_of_state(t, clauses)?;
        }
        Ok(())
    }

    fn push_chains_of_state(&self, t: u32, clauses: &mut Vec<Clause>) -> Result<(), AllocError>
        requires problem { IsProblem self.now.numbering.problem.now }
        requires state { t < self.now.numbering.problem.now.size }
        ensures { OnOk result (clauses.new.items ≡ clauses.old.items ++ state_chains self.now.numbering.problem.now t) }
    {
        for q in 0..self.numbering.problem.automaton.states() {
            self.push_chains_of_pair(t, q, clauses)?;
        }
        Ok(())
    }

    fn push_chains_of_pair(
        &self,
        t: u32,
        q: u32,
        clauses: &mut Vec<Clause>,
    ) -> Result<(), AllocError>
        requires problem { IsProblem self.now.numbering.problem.now }
        requires state { t < self.now.numbering.problem.now.size }
        requires pair { q < states_of (automaton_of self.now.numbering.problem.now) }
        ensures { OnOk result (clauses.new.items ≡ clauses.old.items ++ pair_chains self.now.numbering.problem.now t q) }
    {
        for count in 0..self.numbering.bound_at(q) {
            let before = Lit::new(self.numbering.var_count((t, q), count), true);
            let reached = Lit::new(self.numbering.var_count((t, q), count + 1), false);
            self.push_clause(&[before, reached], clauses)?;
        }
        Ok(())
    }

    /// Where states are numbered they are named in the order of their numbers.
    fn push_order_clauses(&self, clauses: &mut Vec<Clause>) -> Result<(), AllocError>
        requires { IsProblem self.now.numbering.problem.now }
        ensures { OnOk result (clauses.new.items ≡ clauses.old.items ++ order_clauses self.now.numbering.problem.now) }
    {
        if !self.numbering.problem.counting.is_numbered() {
            return Ok(());
        }
        for place in 0..row_count(self.numbering.problem) {
            self.push_orders_of_row(place, clauses)?;
        }
        Ok(())
    }

    fn push_orders_of_row(&self, place: u32, clauses: &mut Vec<Clause>) -> Result<(), AllocError>
        requires problem { IsProblem self.now.numbering.problem.now }
        requires row { place < row_count self.now.numbering.problem.now }
        ensures { OnOk result (clauses.new.items ≡ clauses.old.items ++ row_orders self.now.numbering.problem.now place) }
    {
        for more in 0..self.numbering.problem.size.saturating_sub(2) {
            let lits = self.order_literals(place, more + 2)?;
            self.push_clause(&lits, clauses)?;
        }
        Ok(())
    }

    fn order_literals(&self, place: u32, to: u32) -> Result<Vec<Lit>, AllocError>
        requires problem { IsProblem self.now.numbering.problem.now }
        requires row { place < row_count self.now.numbering.problem.now }
        requires from_two { 2 ≤ to }
        requires target { to < self.now.numbering.problem.now.size }
        ensures { IfOk result (λ lits. lits.items ≡ order_clause self.now.numbering.problem.now place to) }
    {
        let mut lits = Vec::with_capacity(self.alloc, place as usize + 1)?;
        for before in 0..place {
            lits.push(Lit::new(row_move(self.numbering.problem, before, to - 1), true))?;
        }
        lits.push(Lit::new(row_move(self.numbering.problem, place, to), false))?;
        Ok(lits)
    }
}

/// Whether a read letter fits the cube's read signals.
pub(crate) fn fits_read(problem: &Problem, cube: Cube, letter: u32) -> bool
    requires { IsProblem problem.now }
    ensures { result ≡ fits_read problem.now cube letter }
{
    for signal in 0..problem.reads() {
        let whole = read_signal(problem, signal);
        if !signal_fits(cube, whole, number_has(letter, signal)) {
            return false;
        }
    }
    true
}

/// Whether a signal is in the letter of this number.
pub fn number_has(letter: u32, signal: u32) -> bool
    ensures { result ≡ has letter signal }
{
    Letter(u64::from(letter)).has(signal)
}

/// Whether a signal that is set, or isn't, is as the cube wants it.
fn signal_fits(cube: Cube, signal: u32, is_set: bool) -> bool
    ensures { result ≡ signal_fits cube signal is_set }
{
    if is_set {
        !Letter(cube.not).has(signal)
    } else {
        !Letter(cube.must).has(signal)
    }
}

/// The signal of the problem that a read signal of the machine is.
pub(crate) fn read_signal(problem: &Problem, signal: u32) -> u32
    requires problem { IsProblem problem.now }
    requires signal { signal < reads_of problem.now }
    ensures { result ≡ read_signal problem.now signal }
{
    match problem.side {
        Side::System => signal,
        Side::Environment => problem.inputs + signal,
    }
}

/// The signal of the problem that a written signal of the machine is.
fn written_signal(problem: &Problem, signal: u32) -> u32
    requires problem { IsProblem problem.now }
    requires signal { signal < writes_of problem.now }
    ensures { result ≡ written_signal problem.now signal }
{
    match problem.side {
        Side::System => problem.inputs + signal,
        Side::Environment => signal,
    }
}

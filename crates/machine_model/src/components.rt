ghost use Rattle.std.specs.Prelude.{◌≡◌, ◌<◌, ◌≤◌, ◌&&◌, All, IfOk, length, slice_index_or};
ghost use Rattle.text_limits.specs.declared.TheConstants.{LARGE_LIMITS};
ghost use Rattle.machine_model.specs.Automaton.{rejects, states_of};
ghost use Rattle.machine_model.specs.Components.{AreComponentsOf, are_joined, local_count, rejecting_below};
ghost use Rattle.machine_model.specs.Named.{AreCounted, AreNamed, AreSums, AreTurning};

use crate::automata::Automaton;
use crate::names::names;
use std::alloc::{AllocError, Global};
use std::marker::Model;
use std::sync::Arc;

/// The strongly connected components of an automaton, and how many rejecting states a run that stays in one can meet.
/// They are shared, not copied.
#[derive(Debug, Drop)]
pub struct Components {
    tables: Arc<Tables>,
}

#[derive(Debug, Drop)]
struct Tables {
    names: Vec<u32>,
    counts: Vec<u32>,
    before: Vec<u32>,
}

impl Model for Components {
    ghost use Rattle.std.specs.Arc.{arc_value};
    ghost use Rattle.machine_model.specs.Components.{ComponentsModel};

    ghost Value = { ComponentsModel };

    ghost view = { λ c. record {
      names = (arc_value c.tables).names.items;
      counts = (arc_value c.tables).counts.items;
      before = (arc_value c.tables).before.items;
    } };
}

impl Components {
    ghost use Rattle.machine_model.specs.Components.{have_one_name};

    /// The components of an automaton of at most as many states as the larger limits allow.
    ///
    /// Takes as long as it takes to name them, and for each state as many steps as there are states.
    pub fn of(alloc: Global, automaton: &Automaton) -> Result<Components, AllocError>
        requires { states_of automaton.now ≤ LARGE_LIMITS.automaton.states }
        ensures { IfOk result (AreComponentsOf automaton.now) }
    {
        let names = names(alloc, automaton)?;
        let turning = turning(alloc, automaton, &names)?;
        let counts = counts(alloc, automaton, &names, &turning)?;
        let before = sums(alloc, &counts)?;
        let tables = Tables {
            names,
            counts,
            before,
        };
        Ok(Components {
            tables: Arc::new(alloc, tables)?,
        })
    }

    /// The same components, shared. An error means that they have as many owners as can be counted.
    pub fn try_clone(&self) -> Result<Components, AllocError>
        ensures { IfOk result (λ components. components ≡ self.now) }
    {
        Ok(Components {
            tables: Arc::try_clone(&self.tables)?,
        })
    }

    /// Whether two states are in one component.
    pub fn are_joined(&self, q: u32, r: u32) -> bool
        requires first { q < length self.now.names }
        requires second { r < length self.now.names }
        ensures { result ≡ have_one_name self.now q r }
    {
        self.tables.names[q as usize] == self.tables.names[r as usize]
    }

    /// How many rejecting states a run that stays in the component of state `q` can meet.
    pub fn count(&self, q: u32) -> u32
        requires { q < length self.now.counts }
        ensures { result ≡ slice_index_or self.now.counts q 0 }
    {
        self.tables.counts[q as usize]
    }

    /// The sum of these numbers over the first `q` states.
    pub fn before(&self, q: u32) -> u32
        requires { q < length self.now.before }
        ensures { result ≡ slice_index_or self.now.before q 0 }
    {
        self.tables.before[q as usize]
    }
}

/// For each state that is a name, whether an edge leads from its component into itself.
fn turning(alloc: Global, automaton: &Automaton, names: &[u32]) -> Result<Vec<bool>, AllocError>
    requires { AreNamed automaton.now names.now }
    ensures { IfOk result (λ marks. AreTurning automaton.now names.now marks.items) }
{
    let mut marks = vec![in alloc; false; names.len()]?;
    for edge in automaton.edges() {
        let name = names[edge.from as usize];
        if name == names[edge.to as usize] {
            marks[name as usize] = true;
        }
    }
    Ok(marks)
}

/// How many rejecting states a run that stays in a state's component can meet, for each state.
fn counts(
    alloc: Global,
    automaton: &Automaton,
    names: &[u32],
    turning: &[bool],
) -> Result<Vec<u32>, AllocError>
    requires named { AreNamed automaton.now names.now }
    requires turning { AreTurning automaton.now names.now turning.now }
    ensures { IfOk result (λ counts. AreCounted automaton.now counts.items) }
{
    let mut counts = Vec::new(alloc);
    for q in 0..automaton.states() {
        counts.push(count(automaton, names, turning, q))?;
    }
    Ok(counts)
}

fn count(automaton: &Automaton, names: &[u32], turning: &[bool], q: u32) -> u32
    requires named { AreNamed automaton.now names.now }
    requires turning { AreTurning automaton.now names.now turning.now }
    requires place { q < states_of automaton.now }
    ensures { result ≡ local_count automaton.now q }
{
    if turning[names[q as usize] as usize] {
        rejecting(automaton, names, q)
    } else {
        0
    }
}

/// How many rejecting states are in the component of state `q`.
fn rejecting(automaton: &Automaton, names: &[u32], q: u32) -> u32
    requires named { AreNamed automaton.now names.now }
    requires place { q < states_of automaton.now }
    ensures { result ≡ rejecting_below automaton.now q (states_of automaton.now) }
{
    let mut count = 0;
    for r in 0..automaton.states() {
        if rejects_beside(automaton, names, q, r) {
            count += 1;
        }
    }
    count
}

/// Whether state `r` is rejecting and in the component of state `q`.
fn rejects_beside(automaton: &Automaton, names: &[u32], q: u32, r: u32) -> bool
    requires named { AreNamed automaton.now names.now }
    requires first { q < states_of automaton.now }
    requires second { r < states_of automaton.now }
    ensures { result ≡ (rejects automaton.now r && are_joined automaton.now q r) }
{
    automaton.is_rejecting(r) && names[q as usize] == names[r as usize]
}

/// For each number of counts, from 0 on, the sum of so many.
fn sums(alloc: Global, counts: &[u32]) -> Result<Vec<u32>, AllocError>
    requires few { length counts.now ≤ LARGE_LIMITS.automaton.states }
    requires small { All (λ count. count ≤ LARGE_LIMITS.automaton.states) counts.now }
    ensures { IfOk result (λ sums. AreSums counts.now sums.items) }
{
    let mut sums = Vec::new(alloc);
    let mut sum: u32 = 0;
    sums.push(sum)?;
    for count in counts {
        sum += *count;
        sums.push(sum)?;
    }
    Ok(sums)
}

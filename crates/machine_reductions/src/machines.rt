//! Machines whose moves are for classes of letters, and how moves are led elsewhere.

use crate::letter_sets::{Layout, has};
use indexmap::IndexSet;
use machine_model::Row;
use std::alloc::{AllocError, Global};

/// Some letters that are read, by the number of their set, and what is written on them.
#[derive(Clone, Copy, Debug, PartialEq, Eq, Hash)]
pub(crate) struct Class {
    letters: u32,
    pub(crate) writes: u32,
}

/// What a state does on the letters of a class: the class by its number, and the state behind it.
#[derive(Clone, Copy)]
pub(crate) struct Move {
    pub(crate) class: u32,
    pub(crate) next: u32,
}

/// A move by its state and its place among the moves of that.
#[derive(Clone, Copy)]
pub(crate) struct Place {
    pub(crate) state: u32,
    pub(crate) turn: usize,
}

/// A machine, some states of which may be given up.
#[derive(Drop)]
pub(crate) struct Machine {
    pub(crate) layout: Layout,
    start: u32,
    /// The moves of each state. The letters of their classes are all letters.
    states: Vec<Vec<Move>>,
    /// For each state the one to which moves into it lead.
    leads: Vec<u32>,
    /// The states that are reached.
    kept: Vec<bool>,
    sets: IndexSet<Vec<u64>>,
    classes: IndexSet<Class>,
}

impl Machine {
    pub(crate) fn new(alloc: Global, layout: Layout) -> Machine {
        Machine {
            layout,
            start: 0,
            states: Vec::new(alloc),
            leads: Vec::new(alloc),
            kept: Vec::new(alloc),
            sets: IndexSet::new(alloc),
            classes: IndexSet::new(alloc),
        }
    }

    /// The number of a class.
    pub(crate) fn class_of(&mut self, letters: Vec<u64>, writes: u32) -> Result<u32, AllocError> {
        let (set, _is_new) = self.sets.insert_full(letters)?;
        self.number_of(Class {
            letters: short(set),
            writes,
        })
    }

    fn number_of(&mut self, class: Class) -> Result<u32, AllocError> {
        let (number, _is_new) = self.classes.insert_full(class)?;
        Ok(short(number))
    }

    /// The class of the same letters on which something else is written.
    pub(crate) fn class_with(&mut self, class: u32, writes: u32) -> Result<u32, AllocError> {
        match self.class(class) {
            Some(own) => self.number_of(Class { writes, ..own }),
            None => Ok(class),
        }
    }

    /// Adds a state, which is kept.
    pub(crate) fn push(&mut self, moves: Vec<Move>) -> Result<(), AllocError> {
        self.leads.push(short(self.states.len()))?;
        self.kept.push(true)?;
        self.states.push(moves)?;
        Ok(())
    }

    pub(crate) fn class(&self, number: u32) -> Option<Class> {
        self.classes.get_index(number as usize).copied()
    }

    /// The letters of a class.
    pub(crate) fn letters_of(&self, class: Class) -> &[u64] {
        match self.sets.get_index(class.letters as usize) {
            Some(set) => set.as_slice(),
            None => &[],
        }
    }

    /// How many different sets of letters the classes have.
    pub(crate) fn sets(&self) -> usize {
        self.sets.len()
    }

    /// The number of all states, given up or not.
    pub(crate) fn count(&self) -> u32 {
        short(self.states.len())
    }

    pub(crate) fn is_kept(&self, state: u32) -> bool {
        self.kept.get(state as usize).copied().unwrap_or(false)
    }

    pub(crate) fn start(&self) -> u32 {
        self.led(self.start)
    }

    /// The state that stands for another one.
    pub(crate) fn led(&self, state: u32) -> u32 {
        self.leads.get(state as usize).copied().unwrap_or(state)
    }

    /// Leads moves into a state to another one.
    pub(crate) fn lead(&mut self, state: u32, to: u32) {
        if let Some(lead) = self.leads.get_mut(state as usize) {
            *lead = to;
        }
    }

    pub(crate) fn moves(&self, state: u32) -> &[Move] {
        match self.states.get(state as usize) {
            Some(moves) => moves.as_slice(),
            None => &[],
        }
    }

    pub(crate) fn at(&self, place: Place) -> Option<Move> {
        self.moves(place.state).get(place.turn).copied()
    }

    pub(crate) fn put(&mut self, place: Place, step: Move) {
        if let Some(moves) = self.states.get_mut(place.state as usize)
            && let Some(old) = moves.get_mut(place.turn)
        {
            *old = step;
        }
    }

    /// Writes into the moves where they lead, and gives up the states that aren't reached any more.
    pub(crate) fn settle(&mut self, alloc: Global) -> Result<(), AllocError> {
        let order = self.reached(alloc)?;
        for moves in self.states.iter_mut() {
            for step in moves.iter_mut() {
                step.next = self
                    .leads
                    .get(step.next as usize)
                    .copied()
                    .unwrap_or(step.next);
            }
        }
        self.start = self.led(self.start);
        for (state, lead) in (0u32..u32::MAX).zip(self.leads.iter_mut()) {
            *lead = state;
        }
        for (state, kept) in (0u32..u32::MAX).zip(self.kept.iter_mut()) {
            *kept = order.contains(&state);
        }
        Ok(())
    }

    /// The states that are reached, in the order in which they are met.
    fn reached(&self, alloc: Global) -> Result<IndexSet<u32>, AllocError> {
        let mut met = IndexSet::new(alloc);
        met.insert(self.start())?;
        for place in 0..self.states.len() {
            let Some(state) = met.get_index(place).copied() else {
                break;
            };
            for step in self.moves(state) {
                met.insert(self.led(step.next))?;
            }
        }
        Ok(met)
    }

    /// How many states are reached, and their rows on all letters, numbered as they are met.
    pub(crate) fn table(&self, alloc: Global) -> Result<(u32, Vec<Row>), AllocError> {
        let met = self.reached(alloc)?;
        let mut rows = Vec::new(alloc);
        for place in 0..met.len() {
            let Some(state) = met.get_index(place).copied() else {
                break;
            };
            rows.extend_from_slice(&self.rows_of(alloc, state, &met)?)?;
        }
        Ok((short(met.len()), rows))
    }

    fn rows_of(
        &self,
        alloc: Global,
        state: u32,
        met: &IndexSet<u32>,
    ) -> Result<Vec<Row>, AllocError> {
        let nothing = Row { next: 0, writes: 0 };
        let mut rows = vec![in alloc; nothing; self.layout.letters()]?;
        for step in self.moves(state) {
            let Some(class) = self.class(step.class) else {
                continue;
            };
            let row = Row {
                next: short(met.get_index_of(&self.led(step.next)).unwrap_or(0)),
                writes: class.writes,
            };
            fill(&mut rows, self.letters_of(class), row);
        }
        Ok(rows)
    }
}

/// Puts a row at the letters of a set.
fn fill(rows: &mut [Row], letters: &[u64], row: Row) {
    for (letter, place) in rows.iter_mut().enumerate() {
        if has(letters, letter) {
            *place = row;
        }
    }
}

/// A number of what there is less of than 2^32.
pub(crate) fn short(number: usize) -> u32 {
    u32::try_from(number).unwrap_or(u32::MAX)
}

ghost use Rattle.std.specs.Prelude.{◌<◌, IfSome};

use propositional_logic::Lit;
use std::alloc::{AllocError, Global};

/// An activity above this is scaled down, with all others.
const MOST: u64 = 1 << 56;

/// By how many bits activities are scaled down.
const SCALE: u32 = 32;

/// The activity that a reward adds at first.
const FIRST_STEP: u64 = 1 << 16;

/// Variables by their activity: a binary heap over the first places of a list of all variables, and the place of each variable in it.
#[derive(Debug, Drop)]
struct Ranking {
    heap: Vec<u32>,
    places: Vec<usize>,
    activities: Vec<u64>,
}

/// The order in which variables are decided, and the signs that they are decided with: first those that many conflicts of late depend on,
/// each with the sign that it had last. Takes no memory once it is made.
#[derive(Debug, Drop)]
pub struct Order {
    ranking: Ranking,

    // How many of the ranking's places are the heap's.
    size: usize,
    step: u64,
    phases: Vec<bool>,
}

impl Order {
    /// An order of the variables 1 to `vars`, in which workers of different numbers begin at different ones and with other signs.
    pub fn new(alloc: Global, number: u32, vars: u32) -> Result<Order, AllocError> {
        let size = vars as usize;
        Ok(Order {
            ranking: Ranking::new(alloc, number, vars)?,
            size,
            step: FIRST_STEP,
            phases: first_phases(alloc, number, vars)?,
        })
    }

    /// The sign that a variable had last.
    pub fn phase(&self, var: u32) -> bool {
        self.phases.get(var as usize).copied().unwrap_or(false)
    }

    /// Takes the most active variable out.
    pub fn pop(&mut self) -> Option<u32>
        ensures { IfSome result (λ _. self.new.size < self.old.size) }
    {
        let last = self.size.checked_sub(1)?;
        let var = self.ranking.variable(0);
        self.ranking.exchange(0, last);
        self.ranking.sink(0, last);
        self.size = last;
        Some(var)
    }

    /// Puts the variable of a literal back that was true until now, and keeps its sign.
    pub fn release(&mut self, lit: Lit) {
        let var = lit.var();
        if let Some(phase) = self.phases.get_mut(var as usize) {
            *phase = lit.is_positive();
        }
        let place = self.ranking.place(var);
        if place < self.size || self.size >= self.phases.len() {
            return;
        }
        self.ranking.exchange(self.size, place);
        self.ranking.rise(self.size);
        self.size += 1;
    }

    /// Makes the variables of a clause more active.
    pub(crate) fn reward(&mut self, lits: &[Lit]) {
        for lit in lits {
            self.reward_one(lit.var());
        }
    }

    fn reward_one(&mut self, var: u32) {
        let activity = self.ranking.add(var, self.step);
        if activity > MOST {
            self.ranking.scale_down();
            self.step = (self.step >> SCALE).max(1);
        }
        let place = self.ranking.place(var);
        if place < self.size {
            self.ranking.rise(place);
        }
    }

    /// Makes later rewards count more than those until now.
    pub(crate) fn decay(&mut self) {
        self.step = self.step.saturating_add((self.step >> 4).max(1));
    }
}

/// The signs with which variables are decided first: the worker of number 0 tries false, that of number 1 true, and others a mixture.
fn first_phases(alloc: Global, number: u32, vars: u32) -> Result<Vec<bool>, AllocError> {
    let mut phases = Vec::with_capacity(alloc, vars as usize + 1)?;
    for var in 0..vars as u64 + 1 {
        phases.push(match number {
            0 => false,
            1 => true,
            _ => mixed(var, number as u64) & 1 == 1,
        })?;
    }
    Ok(phases)
}

/// A number that looks as if drawn by lot for each two numbers.
fn mixed(a: u64, b: u64) -> u64 {
    let mut x = a
        .wrapping_mul(0x9e37_79b9_7f4a_7c15)
        .wrapping_add(b.wrapping_mul(0xbf58_476d_1ce4_e5b9));
    x ^= x >> 30;
    x = x.wrapping_mul(0x94d0_49bb_1331_11eb);
    x ^ (x >> 31)
}

impl Ranking {
    /// All variables with no activity. The first worker begins at the first variable, each other one at another place.
    fn new(alloc: Global, number: u32, vars: u32) -> Result<Ranking, AllocError> {
        let mut heap = Vec::with_capacity(alloc, vars as usize)?;
        let mut places = vec![in alloc; 0; vars as usize + 1]?;
        let first = match number {
            0 => 0,
            _ => mixed(number as u64, vars as u64),
        };
        for place in 0..vars as usize {
            let var = (first.wrapping_add(place as u64) % vars as u64) as u32 + 1;
            heap.push(var)?;
            if let Some(slot) = places.get_mut(var as usize) {
                *slot = place;
            }
        }
        let activities = vec![in alloc; 0; vars as usize + 1]?;
        Ok(Ranking {
            heap,
            places,
            activities,
        })
    }

    fn variable(&self, place: usize) -> u32 {
        self.heap.get(place).copied().unwrap_or(0)
    }

    fn place(&self, var: u32) -> usize {
        self.places.get(var as usize).copied().unwrap_or(0)
    }

    /// The activity of the variable at a place.
    fn activity(&self, place: usize) -> u64 {
        let var = self.variable(place);
        self.activities.get(var as usize).copied().unwrap_or(0)
    }

    /// Adds to a variable's activity, and answers what it is then.
    fn add(&mut self, var: u32, step: u64) -> u64 {
        let Some(activity) = self.activities.get_mut(var as usize) else {
            return 0;
        };
        *activity = activity.saturating_add(step);
        *activity
    }

    fn scale_down(&mut self) {
        for activity in &mut self.activities {
            *activity >>= SCALE;
        }
    }

    fn exchange(&mut self, a: usize, b: usize) {
        let one = self.variable(a);
        let other = self.variable(b);
        self.put(a, other);
        self.put(b, one);
    }

    fn put(&mut self, place: usize, var: u32) {
        if let Some(slot) = self.heap.get_mut(place) {
            *slot = var;
        }
        if let Some(slot) = self.places.get_mut(var as usize) {
            *slot = place;
        }
    }

    /// Moves the variable at a place towards the front, past those that are less active.
    fn rise(&mut self, from: usize) {
        let mut place = from;
        while place > 0 {
            let parent = (place - 1) / 2;
            if self.activity(place) <= self.activity(parent) {
                return;
            }
            self.exchange(place, parent);
            place = parent;
        }
    }

    /// Moves the variable at a place towards the end of the first `size` places, past those that are more active.
    fn sink(&mut self, from: usize, size: usize) {
        let mut place = from;
        while let Some(child) = self.greater_child(place, size) {
            if self.activity(child) <= self.activity(place) {
                return;
            }
            self.exchange(place, child);
            place = child;
        }
    }

    /// The more active of the two children of a place.
    fn greater_child(&self, place: usize, size: usize) -> Option<usize>
        ensures { IfSome result (λ child. place < child × child < size) }
    {
        let left = place.checked_mul(2)?.checked_add(1)?;
        if left >= size {
            return None;
        }
        let right = left + 1;
        if right < size && self.activity(right) > self.activity(left) {
            return Some(right);
        }
        Some(left)
    }
}

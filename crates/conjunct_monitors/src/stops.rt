//! What is counted, and why a game ends before it is decided.

use conjuncts::Refusal;
use std::alloc::{AllocError, AllocFailed};

/// What monitors and their game may use.
#[derive(Clone, Copy, Debug, PartialEq, Eq)]
pub struct Budget {
    /// A step is about a look at one number.
    pub steps: u64,
    /// The states of the product.
    pub positions: usize,
    /// The edges of the product's classes of letters.
    pub edges: usize,
    /// About the bytes of what is kept.
    pub bytes: usize,
}

/// How much was used.
#[derive(Clone, Copy, Debug, PartialEq, Eq)]
pub struct Usage {
    pub steps: u64,
    pub positions: usize,
    pub edges: usize,
    pub bytes: usize,
}

impl Usage {
    const NOTHING: Usage = Usage {
        steps: 0,
        positions: 0,
        edges: 0,
        bytes: 0,
    };
}

/// What a limit is of.
#[derive(Clone, Copy, Debug, PartialEq, Eq)]
pub enum Limit {
    /// Obligations of one conjunct.
    Obligations,
    /// Alternatives of a state of one monitor.
    Alternatives,
    /// States of one monitor.
    MonitorStates,
    Steps,
    Positions,
    Edges,
    Bytes,
    /// Conjuncts, their forms, or those that ask for something good.
    Conjuncts,
    /// States of a strategy.
    StrategyStates,
}

/// Why a game isn't decided.
#[derive(Clone, Copy, Debug, PartialEq, Eq)]
pub enum Stop {
    /// The formula has no such shape.
    NoShape,
    /// A limit is passed, when so much was used.
    Passed(Limit, Usage),
    NoMemory,
    /// The time is over.
    Time,
}

impl From<AllocError> for Stop {
    fn from(_error: AllocError) -> Stop {
        Stop::NoMemory
    }
}

impl<T: Drop> From<AllocFailed<T>> for Stop {
    fn from(_error: AllocFailed<T>) -> Stop {
        Stop::NoMemory
    }
}

impl From<Refusal> for Stop {
    /// A formula is taken apart before anything is used.
    fn from(refusal: Refusal) -> Stop {
        match refusal {
            Refusal::NoMemory => Stop::NoMemory,
            Refusal::NoShape => Stop::NoShape,
            Refusal::TooManyForms => Stop::Passed(Limit::Conjuncts, Usage::NOTHING),
        }
    }
}

/// Counts what is used of a budget.
#[derive(Clone, Copy)]
pub struct Meter {
    budget: Budget,
    used: Usage,
}

impl Meter {
    pub fn new(budget: Budget) -> Meter {
        Meter {
            budget,
            used: Usage::NOTHING,
        }
    }

    pub fn used(&self) -> Usage {
        self.used
    }

    /// That a limit is passed.
    pub fn passed(&self, limit: Limit) -> Stop {
        Stop::Passed(limit, self.used)
    }

    /// Takes one step and so many more.
    pub fn take_steps(&mut self, steps: usize) -> Result<(), Stop> {
        self.used.steps = self
            .used
            .steps
            .saturating_add(1)
            .saturating_add(steps as u64);
        if self.used.steps > self.budget.steps {
            return Err(self.passed(Limit::Steps));
        }
        Ok(())
    }

    pub fn take_position(&mut self) -> Result<(), Stop> {
        self.used.positions = self.used.positions.saturating_add(1);
        if self.used.positions > self.budget.positions {
            return Err(self.passed(Limit::Positions));
        }
        Ok(())
    }

    pub fn take_edges(&mut self, edges: usize) -> Result<(), Stop> {
        self.used.edges = self.used.edges.saturating_add(edges);
        if self.used.edges > self.budget.edges {
            return Err(self.passed(Limit::Edges));
        }
        Ok(())
    }

    pub fn take_bytes(&mut self, bytes: usize) -> Result<(), Stop> {
        self.used.bytes = self.used.bytes.saturating_add(bytes);
        if self.used.bytes > self.budget.bytes {
            return Err(self.passed(Limit::Bytes));
        }
        Ok(())
    }

    /// Gives back what is no longer kept.
    pub fn give_bytes(&mut self, bytes: usize) {
        self.used.bytes = self.used.bytes.saturating_sub(bytes);
    }
}

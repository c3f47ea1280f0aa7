//! What the fixpoint finds.

/// How the system gets to a goal from a state: in how many levels, and which assumption isn't met meanwhile.
#[derive(Clone, Copy)]
pub(crate) struct Reach {
    pub(crate) level: u32,
    pub(crate) by: u32,
}

/// When a state was lost, and the goal that the environment keeps the system from.
#[derive(Clone, Copy)]
pub(crate) struct Loss {
    pub(crate) round: u32,
    pub(crate) goal: u32,
}

/// Who wins from each state, and how.
#[derive(Drop)]
pub(crate) struct Solution {
    /// Whether the system wins from each state.
    pub(crate) kept: Vec<bool>,
    /// For each goal how it is reached from each state.
    pub(crate) reaches: Vec<Vec<Option<Reach>>>,
    pub(crate) losses: Vec<Option<Loss>>,
    /// For each assumption, of each state that was lost, the steps after which the assumption is met.
    pub(crate) ranks: Vec<Vec<u32>>,
    pub(crate) goals: u32,
    pub(crate) assumptions: u32,
}

impl Solution {
    pub(crate) fn is_kept(&self, state: u32) -> bool {
        self.kept.get(state as usize).copied().unwrap_or(false)
    }

    pub(crate) fn reach(&self, goal: u32, state: u32) -> Option<Reach> {
        let reaches = self.reaches.get(goal as usize)?;
        match reaches.get(state as usize) {
            Some(reach) => *reach,
            None => None,
        }
    }

    pub(crate) fn loss(&self, state: u32) -> Option<Loss> {
        match self.losses.get(state as usize) {
            Some(loss) => *loss,
            None => None,
        }
    }

    pub(crate) fn rank(&self, assumption: u32, state: u32) -> u32 {
        match self.ranks.get(assumption as usize) {
            Some(ranks) => ranks.get(state as usize).copied().unwrap_or(0),
            None => 0,
        }
    }
}

//! What is known of forks that were followed to their end.
ghost use Rattle.std.specs.Prelude.{◌≡◌, ℕ, None, Some, OnOk};

use crate::branches::Fork;
use std::alloc::{AllocFailed, Global};
use std::collections::HashMap;
use std::hash::{Hash, Hasher};

/// Once so many forks are known all are forgotten, so that they take no more memory than that.
const MOST_FORKS: usize = 4_096;

/// How many leaves they have.
#[derive(Drop)]
pub(crate) struct KnownForks {
    leaves: HashMap<Fork, usize>,
}

impl Hash for Fork {
    ghost use Rattle.std.specs.Hash.{u64};
    ghost use Rattle.obligation_sets.specs.ForkLaws.{fork_Alike};

    ghost hash_input = { λ f. u64 f.digest };

    ghost respects_eq = { fork_Alike.fed };

    fn hash<H: Hasher>(&self, state: &mut H) {
        self.digest.hash(state);
    }
}

impl KnownForks {
    ghost use Rattle.obligation_sets.specs.declared.branches.Fork.{Fork};
    ghost use Rattle.obligation_sets.specs.Forks.{Learns, branch_of, leaves_in};

    /// No fork is known.
    pub(crate) fn new(alloc: Global) -> KnownForks
        ensures { (fork : Fork) → leaves_in result fork ≡ None }
    {
        KnownForks {
            leaves: HashMap::new(alloc),
        }
    }

    /// How many leaves a fork has, where it is known.
    pub(crate) fn leaves_of(&self, fork: &Fork) -> Option<usize>
        ensures { result ≡ leaves_in self.now fork.now }
    {
        self.leaves.get(fork).copied()
    }

    /// Takes in how many leaves a fork has.
    pub(crate) fn learn(
        &mut self,
        fork: Fork,
        leaves: usize,
    ) -> Result<(), AllocFailed<(Fork, usize)>>
        ensures { OnOk result (Learns (leaves_in self.old) (leaves_in self.new) (branch_of fork) leaves) }
    {
        self.make_room();
        self.leaves.insert(fork, leaves)?;
        Ok(())
    }

    /// Forgets all forks where there are too many.
    fn make_room(&mut self)
        ensures { (fork : Fork) (n : ℕ) → leaves_in self.new fork ≡ Some n → leaves_in self.old fork ≡ Some n }
    {
        if self.leaves.len() >= MOST_FORKS {
            self.leaves.clear();
        }
    }
}

//! Marks on variables that are all taken off at once.

ghost use Rattle.std.specs.Prelude.{◌≡◌, ◌<◌, length, replicate, slice_set, true, false, IfOk};
ghost use Rattle.diff_store.specs.Causes.{marked};

use std::alloc::{AllocError, Global};
use std::marker::Model;

/// Which variables are marked. A mark counts in its own turn only, so a new turn takes all off.
#[derive(Drop)]
pub(crate) struct Marks {
    /// The turn that counts.
    turn: u32,
    /// The turn in which each variable was marked last, or 0.
    turns: Vec<u32>,
}

impl Model for Marks {
    ghost use Rattle.std.specs.Prelude.{List, Bool, All, nat_eq, map, ◌<◌, ◌≤◌};

    ghost Value = { List Bool };

    ghost view = { λ m. map (λ t. nat_eq t m.turn) m.turns.items };

    ghost invariant = { λ m. (0 < m.turn) × All (λ t. t ≤ m.turn) m.turns.items };
}

impl Marks {
    /// Room for `n` variables, none of which is marked.
    pub(crate) fn reserve(alloc: Global, n: usize) -> Result<Marks, AllocError>
        ensures { IfOk result (λ m. m ≡ replicate n false) }
    {
        Ok(Marks {
            turn: 1,
            turns: vec![in alloc; 0; n]?,
        })
    }

    /// Takes all marks off.
    pub(crate) fn clear(&mut self)
        ensures { self.new ≡ replicate (length self.old) false }
    {
        if self.turn == u32::MAX {
            self.turns.fill(0);
            self.turn = 1;
            return;
        }
        self.turn += 1;
    }

    /// Marks a variable.
    pub(crate) fn mark(&mut self, variable: u32)
        requires { variable < length self.old }
        ensures { self.new ≡ slice_set self.old variable true }
    {
        self.turns[variable as usize] = self.turn;
    }

    /// Whether a variable is marked.
    pub(crate) fn has(&self, variable: u32) -> bool
        requires { variable < length self.now }
        ensures { result ≡ marked self.now variable }
    {
        self.turns[variable as usize] == self.turn
    }
}

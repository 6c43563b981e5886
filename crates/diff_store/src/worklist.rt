//! The variables whose constraints are still to be looked at.

ghost use Rattle.std.specs.Prelude.{◌≡◌, ◌<◌, length, replicate, slice_set, true, false, IfOk, IfSome, IfNone};
ghost use Rattle.diff_store.specs.Raising.{waits_in, NoneWaits};

use std::alloc::{AllocError, Global};
use std::collections::VecDeque;
use std::marker::Model;

/// Variables that wait, each once, the first that came first.
#[derive(Drop)]
pub(crate) struct Worklist {
    queue: VecDeque<u32>,
    /// Whether each variable waits.
    waits: Vec<bool>,
}

impl Model for Worklist {
    ghost use Rattle.std.specs.Prelude.{List, Bool, length, ◌≤◌};
    ghost use Rattle.std.specs.VecDeque.{deque_capacity};
    ghost use Rattle.diff_store.specs.Queued.{Queued};

    ghost Value = { List Bool };

    ghost view = { λ w. w.waits.items };

    ghost invariant = { λ w. Queued w.queue.items w.waits.items
        × (length w.waits.items ≤ deque_capacity w.queue) };
}

impl Worklist {
    /// Room for `n` variables, none of which waits.
    pub(crate) fn reserve(alloc: Global, n: usize) -> Result<Worklist, AllocError>
        ensures { IfOk result (λ w. w ≡ replicate n false) }
    {
        Ok(Worklist {
            queue: VecDeque::with_capacity(alloc, n)?,
            waits: vec![in alloc; false; n]?,
        })
    }

    /// Adds a variable that is below the number of variables; one that waits keeps its place.
    pub(crate) fn add(&mut self, variable: u32)
        requires { variable < length self.old }
        ensures { self.new ≡ slice_set self.old variable true }
    {
        if self.waits[variable as usize] {
            return;
        }
        self.waits[variable as usize] = true;
        self.queue.push_back_reserved(variable);
    }

    /// Takes the variable that came first; None where none waits.
    pub(crate) fn take(&mut self) -> Option<u32>
        ensures range { IfSome result (λ x. x < length self.old) }
        ensures waited { IfSome result (λ x. waits_in self.old x ≡ true) }
        ensures taken { IfSome result (λ x. self.new ≡ slice_set self.old x false) }
        ensures none { IfNone result (NoneWaits self.new) }
        ensures same { IfNone result (self.new ≡ self.old) }
    {
        let variable = self.queue.pop_front()?;
        self.waits[variable as usize] = false;
        Some(variable)
    }

    /// Takes all.
    pub(crate) fn clear(&mut self)
        ensures size { length self.new ≡ length self.old }
        ensures none { NoneWaits self.new }
    {
        while let Some(_variable) = self.take() {}
    }
}

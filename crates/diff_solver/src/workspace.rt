//! The memory of the solver, taken once and used for any number of lists.

ghost use Rattle.std.specs.Prelude.{◌≡◌, IfOk};

use std::alloc::{AllocError, Global};
use std::marker::Model;
use tick_num::Time;

/// Room for solving, and what the last solved list gave.
#[derive(Drop)]
pub struct Work {
    /// The value of each variable.
    pub(crate) values: Vec<Time>,
    /// The round in which each variable was last raised, from 1, or 0.
    pub(crate) rounds: Vec<u32>,
    /// The position of the constraint that last raised each variable.
    pub(crate) causes: Vec<u32>,
    /// A cycle, at the end of the first `used` places.
    pub(crate) cycle: Vec<u32>,
    /// How many variables the last list was over.
    pub(crate) used: usize,
    /// Where the cycle starts.
    pub(crate) start: usize,
    /// How many constraints a list may have.
    pub(crate) constraints: usize,
}

impl Model for Work {
    ghost use Rattle.std.specs.Prelude.{◌≡◌, ◌≤◌, length, take, drop};
    ghost use Rattle.diff_solver.specs.Working.{Working};

    ghost Value = { Working };

    ghost view = { λ w. record { variables = length w.values.items; constraints = w.constraints; values = take w.used w.values.items; cycle = drop w.start (take w.used w.cycle.items) } };

    ghost invariant = { λ w. (length w.rounds.items ≡ length w.values.items) × (length w.causes.items ≡ length w.values.items) × (length w.cycle.items ≡ length w.values.items) × (w.used ≤ length w.values.items) × (w.start ≤ w.used) };
}

impl Work {
    /// Takes room for lists of up to `len` constraints over up to `n` variables.
    pub fn reserve(alloc: Global, n: u32, len: usize) -> Result<Work, AllocError>
        ensures variables { IfOk result (λ w. w.variables ≡ n) }
        ensures constraints { IfOk result (λ w. w.constraints ≡ len) }
    {
        let room = n as usize;
        Ok(Work {
            values: vec![in alloc; 0; room]?,
            rounds: vec![in alloc; 0; room]?,
            causes: vec![in alloc; 0; room]?,
            cycle: vec![in alloc; 0; room]?,
            used: 0,
            start: 0,
            constraints: len,
        })
    }

    /// The values by variable that the last `solve` found, where its answer was `Least`.
    pub fn values(&self) -> &[Time]
        ensures { result.now ≡ self.now.values }
    {
        &self.values[..self.used]
    }

    /// The positions in the list that go round, where the answer of the last `solve` was `Cycle`.
    pub fn cycle(&self) -> &[u32]
        ensures { result.now ≡ self.now.cycle }
    {
        &self.cycle[self.start..self.used]
    }
}

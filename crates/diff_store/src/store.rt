//! A list of constraints that grows and shrinks at its end.

ghost use Rattle.std.specs.Prelude.{◌≡◌, ℕ, ◌-◌, ◌<◌, ◌≤◌, ◌↔◌, ℤ, [], ◌∷◌, ◌++◌, length, take, IfOk};
ghost use Rattle.tick_num.specs.Differences.{LeastValues, MeetsAll, NegativeCycle, listed};
ghost use Rattle.diff_store.specs.Bounds.{Small};

use crate::answering::answer;
use crate::chains::{Links, link, unlink};
use crate::cycles::close;
use crate::trail::Trail;
use crate::turn_marks::Marks;
use crate::worklist::Worklist;
use std::alloc::{AllocError, Global};
use std::marker::Model;
use tick_num::{Diff, Time};

/// Of so many variables no value leaves the range of a `Time`.
const MOST_VARIABLES: u32 = 400_000;

/// So many constraints have positions of 32 bits.
const MOST_CONSTRAINTS: usize = 4_294_967_295;

/// Whether the list has a solution with the constraint that was pushed.
#[derive(Clone, Copy, Debug, PartialEq, Eq)]
pub enum Pushed {
    /// It has: the store has its least values.
    Solvable,
    /// It has none: the store has a cycle of constraints whose bounds sum below 0.
    Closed,
}

/// A list of constraints that grows and shrinks at its end, with its least values, or with a cycle
/// where it has no solution.
#[derive(Drop)]
pub struct Store {
    /// The number of variables.
    variables: usize,
    /// How many constraints the list may have.
    constraints: usize,
    list: Vec<Diff>,
    /// The constraints from each variable.
    links: Links,
    /// The value of each variable.
    values: Vec<Time>,
    /// The position of the constraint that last raised each variable.
    causes: Vec<u32>,
    /// The variables of the chain of causes from the `x` of the newest constraint that raised a value down.
    chain: Marks,
    /// What the pushes have replaced.
    trail: Trail,
    /// A cycle of positions, at the end.
    cycle: Vec<u32>,
    /// Where the cycle starts.
    start: usize,
    worklist: Worklist,
}

impl Model for Store {
    ghost use Rattle.diff_store.specs.Storing.{Storing};

    ghost Value = { Storing };

    ghost use Rattle.diff_store.specs.Standing.{Standing};

    ghost view = { λ s. record { variables = s.variables; constraints = s.constraints; list = s.list.items } };

    ghost invariant = { Standing };
}

impl Store {
    /// Takes room for up to `len` constraints on the variables 0 to `n - 1`. The list is empty. No
    /// other call takes memory. An error says that there is no room for so many: none has room for
    /// more than 400,000 variables or for 2^32 constraints.
    pub fn reserve(alloc: Global, n: u32, len: usize) -> Result<Store, AllocError>
        ensures variables { IfOk result (λ s. s.variables ≡ n) }
        ensures constraints { IfOk result (λ s. s.constraints ≡ len) }
        ensures list { IfOk result (λ s. s.list ≡ []) }
    {
        if n > MOST_VARIABLES {
            return Err(AllocError);
        }
        if len > MOST_CONSTRAINTS {
            return Err(AllocError);
        }
        let variables = n as usize;
        Ok(Store {
            variables,
            constraints: len,
            list: Vec::with_capacity(alloc, len)?,
            links: Links::reserve(alloc, variables, len)?,
            values: vec![in alloc; 0; variables]?,
            causes: vec![in alloc; 0; variables]?,
            chain: Marks::reserve(alloc, variables)?,
            trail: Trail::reserve(alloc, variables, len)?,
            cycle: vec![in alloc; 0; variables]?,
            start: 0,
            worklist: Worklist::reserve(alloc, variables)?,
        })
    }

    /// Adds a constraint, with its bound within 10^13 of zero, to a list that has a solution, and
    /// says whether it still has one. Where it has none, a `pop` comes before the next `push`.
    pub fn push(&mut self, d: Diff) -> Pushed
        requires room { length self.old.list < self.old.constraints }
        requires x { d.x < self.old.variables }
        requires y { d.y < self.old.variables }
        requires small { Small d }
        requires solvable { (v : ℕ → ℤ) × MeetsAll v self.old.list }
        ensures list { self.new.list ≡ self.old.list ++ d ∷ [] }
        ensures solvable { (result ≡ Pushed.Solvable) ↔ ((v : ℕ → ℤ) × MeetsAll v self.new.list) }
        ensures closed { (result ≡ Pushed.Closed) ↔ ((v : ℕ → ℤ) → MeetsAll v self.new.list → ⊥) }
        ensures variables { self.new.variables ≡ self.old.variables }
        ensures constraints { self.new.constraints ≡ self.old.constraints }
    {
        link(&mut self.list, &mut self.links, d);
        let closing = answer(
            &self.list,
            &self.links,
            &mut self.chain,
            &mut self.values,
            &mut self.causes,
            &mut self.trail,
            &mut self.worklist,
        );
        let Some(closing) = closing else {
            return Pushed::Solvable;
        };
        self.worklist.clear();
        self.start = close(&self.list, &self.causes, closing, &mut self.cycle);
        Pushed::Closed
    }

    /// Takes the last pushed constraint away. The answers are then as they were before that push.
    pub fn pop(&mut self)
        requires { 0 < length self.old.list }
        ensures list { self.new.list ≡ take (length self.old.list - 1) self.old.list }
        ensures variables { self.new.variables ≡ self.old.variables }
        ensures constraints { self.new.constraints ≡ self.old.constraints }
    {
        unlink(&mut self.list, &mut self.links);
        self.trail.undo(&mut self.values, &mut self.causes);
    }

    /// How many constraints the list has.
    pub fn len(&self) -> usize
        ensures { result ≡ length self.now.list }
    {
        self.list.len()
    }

    /// The values of all variables, in ticks, in the least of the list's solutions from 0 on.
    pub fn values(&self) -> &[Time]
        requires { (v : ℕ → ℤ) × MeetsAll v self.now.list }
        ensures least { LeastValues self.now.list (listed result.now) }
        ensures size { length result.now ≡ self.now.variables }
    {
        &self.values
    }

    /// The value of a variable, in ticks, in the least of the list's solutions from 0 on.
    pub fn least(&self, var: u32) -> Time
        requires var { var < self.now.variables }
        requires solvable { (v : ℕ → ℤ) × MeetsAll v self.now.list }
        ensures least { (v : ℕ → ℤ) × LeastValues self.now.list v × (result ≡ v var) }
        ensures one { (v : ℕ → ℤ) → LeastValues self.now.list v → result ≡ v var }
    {
        self.values[var as usize]
    }

    /// Positions in the list, where it has no solution: the constraints there go round, and their
    /// bounds sum below 0. There are at most as many as variables.
    pub fn cycle(&self) -> &[u32]
        requires { (v : ℕ → ℤ) → MeetsAll v self.now.list → ⊥ }
        ensures cycle { NegativeCycle self.now.list result.now }
        ensures size { length result.now ≤ self.now.variables }
    {
        &self.cycle[self.start..]
    }
}

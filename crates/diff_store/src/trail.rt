//! What pushes have replaced, so that it can be put back.

ghost use Rattle.std.specs.Prelude.{◌≡◌, ℕ, ◌+◌, ◌*◌, ◌-◌, ◌<◌, ◌≤◌, [], ◌∷◌, ◌++◌, length, take, drop, IfOk, All, ℤ, vec_capacity};
ghost use Rattle.tick_num.specs.Differences.{listed};
ghost use Rattle.diff_store.specs.Causes.{beside};
ghost use Rattle.diff_store.specs.Trails.{value_before, cause_before, SamePast, Kept, KeepsPast, Replaces};

use crate::turn_marks::Marks;
use std::alloc::{AllocError, Global};
use std::marker::Model;
use tick_num::Time;

/// The value of a variable and its cause, before a push replaced them.
#[derive(Clone, Copy, Drop)]
pub(crate) struct Was {
    pub(crate) variable: u32,
    pub(crate) cause: u32,
    pub(crate) value: Time,
}

/// What pushes have replaced, each variable once for each push.
#[derive(Drop)]
pub(crate) struct Trail {
    /// How many pushes there is room for.
    pushes: usize,
    /// What was replaced, the latest last.
    entries: Vec<Was>,
    /// For each push, where its entries start.
    starts: Vec<usize>,
    /// The variables that have an entry of the newest push.
    kept: Marks,
}

impl Model for Trail {
    ghost use Rattle.std.specs.Prelude.{length, ◌*◌, ◌≤◌, vec_capacity};
    ghost use Rattle.diff_store.specs.Trails.{Trailing, Ordered};

    ghost Value = { Trailing };

    ghost view = { λ t. record {
      pushes = t.pushes;
      entries = t.entries.items;
      starts = t.starts.items;
      kept = t.kept;
    } };

    ghost invariant = { λ t. Ordered (length t.kept) (record {
      pushes = t.pushes;
      entries = t.entries.items;
      starts = t.starts.items;
      kept = t.kept;
    })
        × (length t.starts.items ≤ t.pushes)
        × (t.pushes ≤ vec_capacity t.starts)
        × (length t.kept * t.pushes ≤ vec_capacity t.entries) };
}

impl Trail {
    /// Room for `len` pushes on `n` variables.
    pub(crate) fn reserve(alloc: Global, n: usize, len: usize) -> Result<Trail, AllocError>
        requires few { n ≤ 400_000 }
        requires long { len < 4_294_967_296 }
        ensures pushes { IfOk result (λ t. t.pushes ≡ len) }
        ensures entries { IfOk result (λ t. t.entries ≡ []) }
        ensures starts { IfOk result (λ t. t.starts ≡ []) }
        ensures kept { IfOk result (λ t. length t.kept ≡ n) }
    {
        Ok(Trail {
            pushes: len,
            entries: Vec::with_capacity(alloc, n * len)?,
            starts: Vec::with_capacity(alloc, len)?,
            kept: Marks::reserve(alloc, n)?,
        })
    }

    /// Starts the entries of a push.
    pub(crate) fn open(&mut self)
        requires { length self.old.starts < self.old.pushes }
        ensures starts { length self.new.starts ≡ length self.old.starts + 1 }
        ensures none { beside self.new.starts (length self.old.starts) ≡ length self.new.entries }
        ensures past { (v : ℕ → ℤ) (c : ℕ → ℕ) →
            SamePast (length self.old.starts) self.old self.new v v c c }
        ensures pushes { self.new.pushes ≡ self.old.pushes }
        ensures size { length self.new.kept ≡ length self.old.kept }
    {
        self.starts.push_reserved(self.entries.len());
    }

    /// Makes ready for the entries of the newest push, of which there is none yet.
    pub(crate) fn ready(&mut self)
        requires some { 0 < length self.old.starts }
        requires none { beside self.old.starts (length self.old.starts - 1) ≡ length self.old.entries }
        ensures kept { Kept self.new }
        ensures past { (k : ℕ) (v : ℕ → ℤ) (c : ℕ → ℕ) → SamePast k self.old self.new v v c c }
        ensures starts { self.new.starts ≡ self.old.starts }
        ensures pushes { self.new.pushes ≡ self.old.pushes }
        ensures size { length self.new.kept ≡ length self.old.kept }
    {
        self.kept.clear();
    }

    /// Keeps what a variable has, where the newest push has not replaced it yet.
    pub(crate) fn keep(&mut self, variable: u32, value: Time, cause: u32)
        requires variable { variable < length self.old.kept }
        requires kept { Kept self.old }
        ensures { (v v' : ℕ → ℤ) (c c' : ℕ → ℕ) → Replaces variable value cause v v' c c' →
            KeepsPast self.old self.new v v' c c' }
    {
        if self.kept.has(variable) {
            return;
        }
        self.kept.mark(variable);
        self.entries.push_reserved(Was {
            variable,
            cause,
            value,
        });
    }

    /// Puts back what the newest push replaced.
    pub(crate) fn undo(&mut self, values: &mut [Time], causes: &mut [u32])
        requires some { 0 < length self.old.starts }
        requires values { length values.old ≡ length self.old.kept }
        requires causes { length causes.old ≡ length self.old.kept }
        ensures starts { length self.new.starts + 1 ≡ length self.old.starts }
        ensures past { SamePast (length self.new.starts) self.old self.new
            (listed values.old) (listed values.new) (beside causes.old) (beside causes.new) }
        ensures pushes { self.new.pushes ≡ self.old.pushes }
        ensures size { length self.new.kept ≡ length self.old.kept }
    {
        let last = self.starts.len() - 1;
        let start = self.starts[last];
        self.starts.truncate(last);
        put_back(&mut self.entries, start, values, causes);
    }
}

/// Puts back what the entries from a place on say, the latest first.
fn put_back(entries: &mut Vec<Was>, start: usize, values: &mut [Time], causes: &mut [u32])
    requires low { All (λ w. w.variable < length values.old) entries.old.items }
    requires causes { length causes.old ≡ length values.old }
    requires start { start ≤ length entries.old.items }
    ensures entries { entries.new.items ≡ take start entries.old.items }
    ensures values { (y : ℕ) →
        listed values.new y ≡ value_before (drop start entries.old.items) (listed values.old) y }
    ensures causes { (y : ℕ) →
        beside causes.new y ≡ cause_before (drop start entries.old.items) (beside causes.old) y }
    ensures capacity { vec_capacity entries.old ≤ vec_capacity entries.new }
{
    while entries.len() > start {
        let newest = entries.len() - 1;
        let was = entries[newest];
        values[was.variable as usize] = was.value;
        causes[was.variable as usize] = was.cause;
        entries.truncate(newest);
    }
}

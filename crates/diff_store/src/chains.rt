//! Chains of the constraints with one `x`, in the order in which they were pushed.

ghost use Rattle.std.specs.Prelude.{◌≡◌, ◌+◌, ◌-◌, ◌<◌, ◌≤◌, ◌^◌, [], ◌∷◌, ◌++◌, length, take, replicate, IfOk, vec_capacity};
ghost use Rattle.diff_store.specs.Chains.{Chained, linked};
ghost use Rattle.diff_store.specs.Causes.{newest};

use std::alloc::{AllocError, Global};
use tick_num::Diff;

/// For each variable the chain of the constraints with that `x`. The oldest comes first: bounds that
/// always hold are the likeliest to close a cycle.
#[derive(Drop)]
pub(crate) struct Links {
    /// The oldest constraint from each variable.
    pub(crate) firsts: Vec<Option<u32>>,
    /// The newest constraint from each variable.
    pub(crate) lasts: Vec<Option<u32>>,
    /// Beside each constraint the next newer one from its `x`.
    pub(crate) newer: Vec<Option<u32>>,
    /// Beside each constraint the next older one from its `x`.
    pub(crate) older: Vec<Option<u32>>,
}

impl Links {
    /// Room for `len` constraints on `n` variables, from which there are none yet.
    pub(crate) fn reserve(alloc: Global, n: usize, len: usize) -> Result<Links, AllocError>
        ensures firsts { IfOk result (λ links. links.firsts.items ≡ replicate n None) }
        ensures lasts { IfOk result (λ links. links.lasts.items ≡ replicate n None) }
        ensures newer { IfOk result (λ links. length links.newer.items ≡ len) }
        ensures older { IfOk result (λ links. length links.older.items ≡ len) }
    {
        Ok(Links {
            firsts: vec![in alloc; None; n]?,
            lasts: vec![in alloc; None; n]?,
            newer: vec![in alloc; None; len]?,
            older: vec![in alloc; None; len]?,
        })
    }

    /// The oldest constraint from a variable.
    pub(crate) fn first(&self, variable: u32) -> Option<u32>
        requires { variable < length self.now.firsts.items }
        ensures { result ≡ linked self.now.firsts.items variable }
    {
        self.firsts[variable as usize]
    }

    /// The newest constraint from a variable.
    fn last(&self, variable: u32) -> Option<u32>
        requires { variable < length self.now.lasts.items }
        ensures { result ≡ linked self.now.lasts.items variable }
    {
        self.lasts[variable as usize]
    }

    /// The next newer constraint from the same variable.
    pub(crate) fn next(&self, position: u32) -> Option<u32>
        requires { position < length self.now.newer.items }
        ensures { result ≡ linked self.now.newer.items position }
    {
        self.newer[position as usize]
    }
}

/// Adds a constraint to the list and to the end of the chain of its `x`.
pub(crate) fn link(list: &mut Vec<Diff>, links: &mut Links, d: Diff)
    requires chained { Chained (length links.old.firsts.items) list.old.items links.old }
    requires x { d.x < length links.old.firsts.items }
    requires positions { length list.old.items < 2 ^ 32 }
    requires room { length list.old.items < vec_capacity list.old }
    requires newer { length list.old.items < length links.old.newer.items }
    requires older { length list.old.items < length links.old.older.items }
    ensures chained { Chained (length links.new.firsts.items) list.new.items links.new }
    ensures variables { length links.new.firsts.items ≡ length links.old.firsts.items }
    ensures newer { length links.new.newer.items ≡ length links.old.newer.items }
    ensures older { length links.new.older.items ≡ length links.old.older.items }
    ensures list { list.new.items ≡ list.old.items ++ d ∷ [] }
    ensures capacity { vec_capacity list.old ≤ vec_capacity list.new }
{
    let position = list.len();
    let x = d.x as usize;
    let before = links.last(d.x);
    list.push_reserved(d);
    links.lasts[x] = Some(position as u32);
    links.older[position] = before;
    links.newer[position] = None;
    let Some(last) = before else {
        links.firsts[x] = Some(position as u32);
        return;
    };
    links.newer[last as usize] = Some(position as u32);
}

/// Takes the newest constraint off the list and off the chain of its `x`.
pub(crate) fn unlink(list: &mut Vec<Diff>, links: &mut Links)
    requires chained { Chained (length links.old.firsts.items) list.old.items links.old }
    requires some { 0 < length list.old.items }
    requires x { (newest list.old.items).x < length links.old.firsts.items }
    ensures chained { Chained (length links.new.firsts.items) list.new.items links.new }
    ensures variables { length links.new.firsts.items ≡ length links.old.firsts.items }
    ensures newer { length links.new.newer.items ≡ length links.old.newer.items }
    ensures older { length links.new.older.items ≡ length links.old.older.items }
    ensures list { list.new.items ≡ take (length list.old.items - 1) list.old.items }
    ensures capacity { vec_capacity list.old ≤ vec_capacity list.new }
{
    let position = list.len() - 1;
    let x = list[position].x as usize;
    let older = links.older[position];
    match older {
        None => links.firsts[x] = None,
        Some(older) => links.newer[older as usize] = None,
    }
    links.lasts[x] = older;
    list.truncate(position);
}

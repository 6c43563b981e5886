//! How often the choices name each round.

ghost use Rattle.std.specs.Prelude.{◌≡◌, ℕ, ◌+◌, ◌-◌, ◌%◌, ◌^◌, ◌<◌, ◌≤◌, [], cond, IfNone, IfOk, IfSome, None, length, slice_index_or};
ghost use Rattle.sched_model.specs.Numbers.{natural};
ghost use Rattle.sched_model.specs.ConstraintProblem.{load_of};
ghost use Rattle.constraint_set.specs.Decided.{AllRoom, FirstOver, decision_of, names_round};
ghost use Rattle.constraint_set.specs.Loads.{Within, first, is_round, round_of, times, with_one};

use crate::decisions::{Choice, Decisions};
use crate::frame::Rounds;
use std::alloc::{AllocError, Global};
use std::marker::Model;

/// How often each round is named, kept choice by choice. All room is reserved when it is made.
#[derive(Drop)]
pub struct Loads {
    counts: Vec<u64>,
    named: Vec<Option<u64>>,
}

impl Model for Loads {
    ghost use Rattle.std.specs.Prelude.{length, vec_capacity};
    ghost use Rattle.constraint_set.specs.Loads.{IsCounted, Tally};

    ghost Value = { Tally };

    ghost view = { λ l. record { rounds = length l.counts.items; room = vec_capacity l.named; named = l.named.items } };

    ghost invariant = { λ l. IsCounted l.counts.items l.named.items };
}

/// Counts one choice more of the round, where one is named.
fn add_one(counts: &mut Vec<u64>, round: Option<u64>)
    requires within { Within (length counts.old.items) round }
    requires room { IfSome round (λ j. slice_index_or counts.old.items (j - 1) 0 + 1 < 2 ^ 64) }

    ensures same { length counts.new.items ≡ length counts.old.items }
    ensures counts { (q : ℕ) → q < length counts.old.items → slice_index_or counts.new.items q 0
        ≡ slice_index_or counts.old.items q 0 + cond (is_round (q + 1) round) 1 0 }
{
    if let Some(round) = round {
        counts[round as usize - 1] += 1;
    }
}

/// Counts one choice less of the round, where one is named.
fn take_one(counts: &mut Vec<u64>, round: Option<u64>)
    requires within { Within (length counts.old.items) round }
    requires some { IfSome round (λ j. 1 ≤ slice_index_or counts.old.items (j - 1) 0) }

    ensures same { length counts.new.items ≡ length counts.old.items }
    ensures counts { (q : ℕ) → q < length counts.old.items
        → slice_index_or counts.new.items q 0 + cond (is_round (q + 1) round) 1 0
        ≡ slice_index_or counts.old.items q 0 }
{
    if let Some(round) = round {
        counts[round as usize - 1] -= 1;
    }
}

impl Loads {
    /// No choice yet, with so many rounds and room for so many choices.
    pub fn reserve(alloc: Global, rounds: u32, choices: usize) -> Result<Loads, AllocError>
        ensures { IfOk result (λ l. l ≡ record { rounds = rounds; room = choices; named = [] }) }
    {
        let counts = vec![in alloc; 0; rounds as usize]?;
        let named = Vec::with_capacity(alloc, choices)?;
        Ok(Loads { counts, named })
    }

    /// How many choices are counted.
    fn len(&self) -> usize
        ensures { result ≡ length self.now.named }
    {
        self.named.len()
    }

    /// Counts one choice more, with the round, from 1, that it names, if any.
    pub fn count(&mut self, round: Option<u64>)
        requires within { Within self.old.rounds round }
        requires room { length self.old.named < self.old.room }

        ensures { self.new ≡ with_one self.old round }
    {
        self.named.push_reserved(round);
        add_one(&mut self.counts, round);
    }

    /// Takes the last choice back.
    pub fn take_back(&mut self)
        requires { 0 < length self.old.named }
        ensures { self.new ≡ first (length self.old.named - 1) self.old }
    {
        let top = self.named.len() - 1;
        take_one(&mut self.counts, self.named[top]);
        self.named.truncate(top);
    }

    /// Takes back all choices but the first ones, so many as are kept.
    pub fn keep_first(&mut self, kept: usize)
        ensures { self.new ≡ first kept self.old }
    {
        while self.len() > kept {
            self.take_back();
        }
    }

    /// The round, from 1, that the last choice names, if any.
    pub fn last(&self) -> Option<u64>
        ensures last { result ≡ slice_index_or self.now.named (length self.now.named - 1) None }
        ensures within { Within self.now.rounds result }
    {
        if self.named.len() == 0 {
            return None;
        }
        self.named[self.named.len() - 1]
    }

    /// How many of the choices name the round, from 1.
    pub fn load(&self, round: u64) -> u64
        requires some { 1 ≤ round }
        requires within { round ≤ self.now.rounds }

        ensures { result ≡ times round self.now.named }
    {
        self.counts[round as usize - 1]
    }
}

/// The number itself, or 0 in place of a negative one.
#[tactic(auto, using(crate::proofs::Loadings::natural_here, crate::proofs::Loadings::natural_negative))]
fn natural_of(value: i64) -> u64
    ensures { result ≡ natural value }
{
    if value < 0 {
        return 0;
    }
    value.unsigned_abs()
}

/// The place of the round that a round instance is one of.
pub(crate) fn place_of_round(value: i64, rounds: Rounds) -> u64
    ensures { result ≡ (natural value - 1) % rounds }
{
    natural_of(value).saturating_sub(1) % rounds.get() as u64
}

/// Whether the choice names the round at the place. That of a pair names none.
fn names_round(choice: Choice, value: i64, rounds: Rounds, round: u32) -> bool
    ensures { result ≡ names_round rounds round (decision_of choice) value }
{
    match choice {
        Choice::Serve(_, _) => place_of_round(value, rounds) == round as u64,
        Choice::Order(_, _) => false,
    }
}

/// The round, from 1, that the choice names; none for a pair.
pub(crate) fn round_named(choice: Choice, value: i64, rounds: Rounds) -> Option<u64>
    ensures round { result ≡ round_of rounds (decision_of choice) value }
    ensures within { Within rounds result }
{
    match choice {
        Choice::Serve(_, _) => Some(place_of_round(value, rounds) + 1),
        Choice::Order(_, _) => None,
    }
}

/// How many of the choices name the round at the place.
fn load_of(decisions: &Decisions, prefix: &[i64], rounds: Rounds, round: u32) -> usize
    requires few { length prefix.now ≤ length decisions.now }
    ensures { result ≡ load_of rounds round decisions.now prefix.now }
{
    let mut total = 0;
    for (place, value) in prefix.iter().enumerate() {
        if names_round(decisions.at(place), *value, rounds, round) {
            total += 1;
        }
    }
    total
}

/// The first round, from 1, that the choices name more often than it has slots.
pub(crate) fn first_overfull(
    decisions: &Decisions,
    prefix: &[i64],
    rounds: Rounds,
    slots: u32,
) -> Option<u64>
    requires few { length prefix.now ≤ length decisions.now }

    ensures none { IfNone result (AllRoom slots rounds rounds decisions.now prefix.now) }
    ensures some { IfSome result (FirstOver slots rounds decisions.now prefix.now) }
{
    for round in 0..rounds.get() {
        if load_of(decisions, prefix, rounds, round) > slots as usize {
            return Some(round as u64 + 1);
        }
    }
    None
}

//! The constraint problem of a mode and a number of rounds.

ghost use Rattle.std.specs.Prelude.{◌≡◌, ◌-◌, ◌*◌, ◌<◌, ◌≤◌, ◌↔◌, IfNone, IfOk, IfSome, IsTrue, OnErr, OnOk, length, pos, slice_index_or};
ghost use Rattle.app_graph.specs.Validation.{KeepsRules};
ghost use Rattle.sched_model.specs.PlainMode.{instances, most_rounds, plain_at};
ghost use Rattle.sched_model.specs.ConstraintProblem.{alternatives, base, chosen, decisions, order, vars};
ghost use Rattle.sched_model.specs.Numbers.{span};
ghost use Rattle.sched_model.specs.OpenPrefix.{Chosen};
ghost use Rattle.sched_model.specs.ProblemLimits.{ProblemFits};
ghost use Rattle.sched_model.specs.ValidMode.{IsValid};
ghost use Rattle.sched_model.specs.PrintedSchedule.{schedule_of};
ghost use Rattle.tick_num.specs.Differences.{listed};
ghost use Rattle.constraint_set.specs.Decided.{AllRoom, FirstOver, MayChoose};
ghost use Rattle.constraint_set.specs.Loads.{Within, round_of};

use crate::base::make_base;
use crate::chains::find_chains;
use crate::choices::{alternatives_at, diffs_at, diffs_of};
use crate::decisions::{Decisions, make_decisions};
use crate::frame::{Frame, Rounds};
use crate::loads::{first_overfull, round_named};
use crate::schedule::make_schedule;
use app_graph::ModeSet;
use sched_model::{Schedule, TaskGraph};
use std::alloc::{AllocError, Global};
use std::marker::Model;
use tick_num::{Diff, Time};

/// The constraint problem of a mode, for a number of rounds in a hyperperiod.
#[derive(Drop)]
pub struct Problem {
    frame: Frame,
    chains: Vec<Diff>,
    decisions: Decisions,
    rounds: Rounds,
    base: Vec<Diff>,
}

impl Model for Problem {
    ghost use Rattle.constraint_set.specs.Posed.{Posed, Ready};

    ghost Value = { Posed };

    ghost view = { λ p. record { mode = p.frame; rounds = p.rounds } };

    ghost invariant = { λ p. Ready (record { mode = p.frame; rounds = p.rounds }) p.chains.items p.base.items p.decisions };
}

impl Problem {
    /// The problem of the mode of this number, for so many rounds, from 1 to the most that a hyperperiod has room for.
    pub fn make(alloc: Global, set: &ModeSet, mode: u32, rounds: u64) -> Result<Problem, AllocError>
        requires rules { KeepsRules set.now }
        requires mode { mode < length set.now.modes }
        requires some { 1 ≤ rounds }
        requires most { rounds ≤ most_rounds (plain_at set.now mode) }

        ensures { IfOk result (λ p. p ≡ record { mode = plain_at set.now mode; rounds = rounds }) }
    {
        let graph = TaskGraph::of(set, mode);
        let frame = Frame::make(alloc, set, mode, &graph)?;
        let chains = find_chains(alloc, &frame, &graph)?;
        let decisions = make_decisions(alloc, &frame)?;
        frame.kept();
        let rounds = Rounds::new(rounds);
        let base = make_base(alloc, &frame, chains.as_slice(), rounds)?;
        Ok(Problem {
            frame,
            chains,
            decisions,
            rounds,
            base,
        })
    }

    /// Goes over to another number of rounds, from 1 to the most that a hyperperiod has room for. What does not depend on
    /// it is kept. Without memory for the constraints the problem stays as it is.
    pub fn set_rounds(&mut self, rounds: u64) -> Result<(), AllocError>
        requires some { 1 ≤ rounds }
        requires most { rounds ≤ most_rounds self.old.mode }

        ensures moved { OnOk result (self.new ≡ record { mode = self.old.mode; rounds = rounds }) }

        ensures kept { OnErr result (self.new ≡ self.old) }
    {
        let alloc = *self.base.allocator();
        self.frame.kept();
        let next = Rounds::new(rounds);
        let base = make_base(alloc, &self.frame, self.chains.as_slice(), next)?;
        self.rounds = next;
        self.base = base;
        Ok(())
    }

    /// How many variables it has: one for each round's start and each task's, and two for each message.
    pub fn vars(&self) -> u32
        ensures count { result ≡ vars self.now.mode self.now.rounds }
        ensures few { result ≤ 512 }
        ensures fits { ProblemFits self.now.mode self.now.rounds }
        ensures valid { IsValid self.now.mode }
    {
        self.frame.kept();
        self.rounds.get() + self.frame.task_count() + 2 * self.frame.message_count()
    }

    /// The number of rounds in a hyperperiod.
    pub fn rounds(&self) -> u32
        ensures count { result ≡ self.now.rounds }
        ensures some { 1 ≤ result }
        ensures most { result ≤ most_rounds self.now.mode }
    {
        self.rounds.get()
    }

    /// The constraints that hold whatever is chosen, in their order.
    pub fn base(&self) -> &[Diff]
        ensures { result.now ≡ base self.now.mode self.now.rounds }
    {
        self.base.as_slice()
    }

    /// How many decisions there are.
    pub fn decisions(&self) -> usize
        ensures { result ≡ length (decisions self.now.mode) }
    {
        self.decisions.len()
    }

    /// The number of slots in a round.
    pub fn slots(&self) -> u32
        ensures { result ≡ self.now.mode.slots }
    {
        self.frame.slots()
    }

    /// Whether the rounds have too few slots for the copies of all messages.
    pub fn short_of_slots(&self) -> bool
        ensures { IsTrue result
            ↔ (self.now.rounds * self.now.mode.slots < instances self.now.mode) }
    {
        (self.rounds.get() as u64 * self.frame.slots() as u64) < self.frame.instances()
    }

    /// The least and the greatest alternative of the next decision after these choices;
    /// there is none where the least is above the greatest.
    pub fn alternatives(&self, prefix: &[i64]) -> (i64, i64)
        requires more { length prefix.now < length (decisions self.now.mode) }
        requires chosen { Chosen self.now.mode self.now.rounds prefix.now }

        ensures { span result.0 result.1 ≡ alternatives self.now.mode self.now.rounds prefix.now }
    {
        let choice = self.decisions.at(prefix.len());
        alternatives_at(&self.frame, self.rounds, choice, prefix)
    }

    /// The two constraints that the last of these choices adds.
    pub fn diffs_of_last(&self, prefix: &[i64]) -> [Diff; 2]
        requires some { 0 < length prefix.now }
        requires few { length prefix.now ≤ length (decisions self.now.mode) }
        requires chosen { Chosen self.now.mode self.now.rounds prefix.now }

        ensures { result ≡ chosen self.now.mode self.now.rounds
            (slice_index_or (decisions self.now.mode) (length prefix.now - 1) (order 0 0))
            (slice_index_or prefix.now (length prefix.now - 1) (pos 0)) }
    {
        let last = prefix.len() - 1;
        let choice = self.decisions.at(last);
        diffs_at(&self.frame, self.rounds, choice, prefix, last)
    }

    /// The two constraints that the choice `value` adds for the decision at the place `at`, whichever the others are.
    pub fn chosen_diffs(&self, at: usize, value: i64) -> [Diff; 2]
        requires at { at < length (decisions self.now.mode) }
        requires value { MayChoose self.now.mode self.now.rounds
            (slice_index_or (decisions self.now.mode) at (order 0 0)) value }

        ensures { result ≡ chosen self.now.mode self.now.rounds
            (slice_index_or (decisions self.now.mode) at (order 0 0)) value }
    {
        let choice = self.decisions.at(at);
        diffs_of(&self.frame, self.rounds, choice, value)
    }

    /// The first round, from 1, that these choices name more often than it has slots; None exactly where there is none.
    pub fn overfull(&self, prefix: &[i64]) -> Option<u64>
        requires { length prefix.now ≤ length (decisions self.now.mode) }

        ensures none { IfNone result (AllRoom self.now.mode.slots self.now.rounds self.now.rounds
            (decisions self.now.mode) prefix.now) }
        ensures some { IfSome result (FirstOver self.now.mode.slots self.now.rounds
            (decisions self.now.mode) prefix.now) }
    {
        first_overfull(&self.decisions, prefix, self.rounds, self.frame.slots())
    }

    /// The schedule of a full list of choices and a value for each variable, in ticks: its tables have the messages
    /// whose choices name their rounds, in file order.
    pub fn to_schedule(&self, choices: &[i64], values: &[Time]) -> Result<Schedule, AllocError>
        requires full { length choices.now ≡ length (decisions self.now.mode) }
        requires values { length values.now ≡ vars self.now.mode self.now.rounds }

        ensures { IfOk result (λ s. s ≡ schedule_of self.now.mode self.now.rounds choices.now
            (listed values.now)) }
    {
        let alloc = *self.base.allocator();
        make_schedule(alloc, &self.frame, self.rounds, choices, values)
    }

    /// The round, from 1, that this choice for the decision at the place `at` names; none for a pair of tasks.
    pub fn round_of(&self, at: usize, value: i64) -> Option<u64>
        requires { at < length (decisions self.now.mode) }

        ensures round { result ≡ round_of self.now.rounds
            (slice_index_or (decisions self.now.mode) at (order 0 0)) value }
        ensures within { Within self.now.rounds result }
    {
        round_named(self.decisions.at(at), value, self.rounds)
    }
}

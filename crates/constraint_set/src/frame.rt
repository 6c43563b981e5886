//! What all constraint problems of a mode have in common, whatever the number of rounds.

ghost use Rattle.std.specs.Prelude.{◌≡◌, ◌+◌, ◌<◌, ◌≤◌, All, IfOk, length, map};
ghost use Rattle.app_graph.specs.Validation.{KeepsRules};
ghost use Rattle.sched_model.specs.Numbers.{below};
ghost use Rattle.sched_model.specs.PlainMode.{copy_count, hyper, instances, message_at, plain_at, task_at};
ghost use Rattle.sched_model.specs.ConstraintProblem.{closes_var, opens_var, task_var};
ghost use Rattle.sched_model.specs.Links.{graph_of};
ghost use Rattle.sched_model.specs.ModeLimits.{IsLimited};
ghost use Rattle.sched_model.specs.TaskGraph.{first};
ghost use Rattle.sched_model.specs.ValidMode.{IsValid};

use crate::flat::{FlatMessage, FlatMode, FlatTask, flatten};
use app_graph::ModeSet;
use sched_model::{TaskGraph, hyper, instances};
use std::alloc::{AllocError, Global};
use std::marker::Model;

/// A mode of an accepted file, with what is found once for it. Times are in ticks.
#[derive(Drop)]
pub(crate) struct Frame {
    mode: FlatMode,
    ticks: u64,
    instances: u64,
    firsts: Vec<bool>,
}

impl Model for Frame {
    ghost use Rattle.sched_model.specs.PlainMode.{PlainMode};
    ghost use Rattle.constraint_set.specs.Posed.{IsFramed};

    ghost Value = { PlainMode };

    ghost view = { λ f. f.mode };

    ghost invariant = { λ f. IsFramed f.mode f.ticks f.instances f.firsts.items };
}

/// A number of rounds in a hyperperiod, from 1 to 256.
#[derive(Clone, Copy, Drop)]
pub(crate) struct Rounds {
    count: u32,
}

impl Model for Rounds {
    ghost use Rattle.std.specs.Prelude.{ℕ, ◌≤◌};

    ghost Value = { ℕ };

    ghost view = { λ r. r.count };

    ghost invariant = { λ r. (1 ≤ r.count) × (r.count ≤ 256) };

    ghost inverse = { λ n. record { count = n } };
}

impl Rounds {
    /// So many rounds.
    pub(crate) fn new(count: u64) -> Rounds
        requires some { 1 ≤ count }
        requires few { count ≤ 256 }

        ensures { result ≡ count }
    {
        Rounds {
            count: count as u32,
        }
    }

    /// The number.
    pub(crate) fn get(self) -> u32
        ensures count { result ≡ self }
        ensures some { 1 ≤ self }
        ensures few { self ≤ 256 }
    {
        self.count
    }
}

/// Whether each task is a first one, in file order.
fn find_firsts(alloc: Global, mode: &FlatMode, graph: &TaskGraph) -> Result<Vec<bool>, AllocError>
    requires few { length mode.now.tasks ≤ 128 }
    requires graph { graph.now ≡ graph_of mode.now }

    ensures { IfOk result (λ v. v.items ≡ map (first mode.now) (below (length mode.now.tasks))) }
{
    let mut firsts = Vec::new(alloc);
    for task in 0..mode.task_count() {
        firsts.push(graph.is_first(task as usize))?;
    }
    Ok(firsts)
}

/// The hyperperiod of the mode, in ticks.
fn ticks_of(set: &ModeSet, mode: u32) -> u64
    requires rules { KeepsRules set.now }
    requires mode { mode < length set.now.modes }

    ensures { result ≡ hyper (plain_at set.now mode) }
{
    hyper(set, mode).unsigned_abs()
}

impl Frame {
    /// That of the mode of this number, whose task graph this is.
    pub(crate) fn make(
        alloc: Global,
        set: &ModeSet,
        mode: u32,
        graph: &TaskGraph,
    ) -> Result<Frame, AllocError>
        requires rules { KeepsRules set.now }
        requires mode { mode < length set.now.modes }
        requires graph { graph.now ≡ graph_of (plain_at set.now mode) }

        ensures { IfOk result (λ f. f ≡ plain_at set.now mode) }
    {
        let flat = flatten(alloc, set, mode)?;
        let firsts = find_firsts(alloc, &flat, graph)?;
        Ok(Frame {
            mode: flat,
            ticks: ticks_of(set, mode),
            instances: instances(set, mode),
            firsts,
        })
    }

    /// The mode is valid and within the limits.
    pub(crate) fn kept(&self)
        ensures valid { IsValid self.now }
        ensures limits { IsLimited self.now }
    {
        let _mode = &self.mode;
    }

    /// The hyperperiod.
    pub(crate) fn ticks(&self) -> u64
        ensures ticks { result ≡ hyper self.now }
        ensures most { result ≤ 1000000000000 }
    {
        self.ticks
    }

    /// How many slots the message at the place needs in a hyperperiod: in each window one for each copy.
    #[tactic(auto, using(crate::proofs::BaseLists::message_some))]
    pub(crate) fn copies_of(&self, message: u32) -> u64
        requires { message < length self.now.messages }
        ensures { result ≡ copy_count self.now (message_at self.now message) }
    {
        self.kept();
        let message = self.message(message);
        u64::from(message.copies()) * (self.ticks / message.period())
    }

    /// How many slots all messages need in a hyperperiod.
    pub(crate) fn instances(&self) -> u64
        ensures { result ≡ instances self.now }
    {
        self.instances
    }

    /// The number of slots in a round.
    pub(crate) fn slots(&self) -> u32
        ensures slots { result ≡ self.now.slots }
        ensures most { result ≤ 32 }
    {
        self.mode.slots()
    }

    /// The length of a round.
    pub(crate) fn round(&self) -> u64
        ensures round { result ≡ self.now.round }
        ensures most { result ≤ 1000000000 }
    {
        self.mode.round()
    }

    /// The greatest time from one round's start to the next one's.
    pub(crate) fn gap(&self) -> u64
        ensures gap { result ≡ self.now.gap }
        ensures most { result ≤ 1000000000 }
    {
        self.mode.gap()
    }

    /// How many tasks there are.
    pub(crate) fn task_count(&self) -> u32
        ensures count { result ≡ length self.now.tasks }
        ensures few { result ≤ 128 }
    {
        self.mode.task_count()
    }

    /// How many messages there are.
    pub(crate) fn message_count(&self) -> u32
        ensures count { result ≡ length self.now.messages }
        ensures few { result ≤ 64 }
    {
        self.mode.message_count()
    }

    /// The variable of a task's first start.
    pub(crate) fn task_var(&self, rounds: Rounds, task: u32) -> u32
        requires task { task < length self.now.tasks }
        ensures { result ≡ task_var rounds task }
    {
        self.kept();
        rounds.get() + task
    }

    /// The variable of the opening of a message's first window.
    pub(crate) fn opens_var(&self, rounds: Rounds, message: u32) -> u32
        requires message { message < length self.now.messages }

        ensures opens { result ≡ opens_var self.now rounds message }
        ensures few { result < 512 }
    {
        self.kept();
        rounds.get() + self.task_count() + 2 * message
    }

    /// The variable of its closing.
    pub(crate) fn closes_var(&self, rounds: Rounds, message: u32) -> u32
        requires message { message < length self.now.messages }
        ensures { result ≡ closes_var self.now rounds message }
    {
        self.opens_var(rounds, message) + 1
    }

    /// Whether the task at the place is a first one, which consumes no message.
    pub(crate) fn is_first(&self, place: u32) -> bool
        requires { place < length self.now.tasks }
        ensures { result ≡ first self.now place }
    {
        let firsts = self.firsts.as_slice();
        firsts[place as usize]
    }

    /// The task at the place.
    #[tactic(auto, using(crate::proofs::BaseLists::task_times))]
    pub(crate) fn task(&self, place: u32) -> &FlatTask
        requires { place < length self.now.tasks }

        ensures task { result.now ≡ task_at self.now place }
        ensures wcet { result.now.wcet ≤ 1000000000 }
        ensures period { result.now.period ≤ 1000000000 }
        ensures deadline { result.now.deadline ≤ 1000000000000 }
    {
        self.mode.task(place)
    }

    /// The message at the place.
    #[tactic(auto, using(crate::proofs::BaseLists::message_times, crate::proofs::BaseLists::message_some))]
    pub(crate) fn message(&self, place: u32) -> &FlatMessage
        requires { place < length self.now.messages }

        ensures message { result.now ≡ message_at self.now place }
        ensures period { (1 ≤ result.now.period) × (result.now.period ≤ 1000000000) }
        ensures from { All (λ a. a < length self.now.tasks) result.now.from }
        ensures to { All (λ b. b < length self.now.tasks) result.now.to }
    {
        self.mode.message(place)
    }
}

//! The clause on chains. No call takes memory.

ghost use Rattle.std.specs.Prelude.{◌≡◌, ◌↔◌, ℕ, ◌<◌, ◌≤◌, IsTrue, length, true};
ghost use Rattle.sched_model.specs.Judged.{ChainsTo, IsCase};
ghost use Rattle.sched_model.specs.Links.{graph_of, sources_of};
ghost use Rattle.sched_model.specs.PlainMode.{plain_at};
ghost use Rattle.sched_model.specs.RightSchedule.{ChainFits};
ghost use Rattle.sched_model.specs.TaskGraph.{Reaches, first, last, reaches};

use crate::links::{TaskGraph, TaskSet};
use crate::rows::{task_at, task_count};
use crate::schedule::Schedule;
use crate::schedule_times::task_start;
use app_graph::ModeSet;

/// Whether a chain from the task at `start` ends in time, where that one is a first task and among the sources of the task at `end`.
fn chain_fits(
    set: &ModeSet,
    mode: u32,
    s: &Schedule,
    graph: &TaskGraph,
    sources: TaskSet,
    start: usize,
    end: usize,
) -> bool
    requires case { IsCase set.now mode s.now }
    requires graph { graph.now ≡ graph_of (plain_at set.now mode) }
    requires few { length (plain_at set.now mode).tasks ≤ 128 }
    requires sources { sources ≡ sources_of (plain_at set.now mode) end }
    requires start { start < length (plain_at set.now mode).tasks }
    requires end { end < length (plain_at set.now mode).tasks }
    ensures { IsTrue result ↔ (first (plain_at set.now mode) start ≡ true → reaches (plain_at set.now mode) start end ≡ true → ChainFits (plain_at set.now mode) s.now start end) }
{
    if !sources.has(start) {
        return true;
    }
    if !graph.is_first(start) {
        return true;
    }
    let stop = task_start(s, end) + task_at(set, mode, end).wcet;
    stop <= task_start(s, start) + task_at(set, mode, start).deadline
}

/// Whether the chains to the task at `end` end in time, where that one is a last task.
fn chains_to(set: &ModeSet, mode: u32, s: &Schedule, graph: &TaskGraph, end: usize) -> bool
    requires case { IsCase set.now mode s.now }
    requires graph { graph.now ≡ graph_of (plain_at set.now mode) }
    requires end { end < length (plain_at set.now mode).tasks }
    ensures { IsTrue result ↔ ChainsTo (plain_at set.now mode) s.now end }
{
    let count = task_count(set, mode);
    let sources = graph.sources(end);
    for start in 0..count {
        if !chain_fits(set, mode, s, graph, sources, start, end) {
            return false;
        }
    }
    true
}

/// Whether the chains to the task at `end` end in time, or it is no last task.
fn ends_chains(set: &ModeSet, mode: u32, s: &Schedule, graph: &TaskGraph, end: usize) -> bool
    requires case { IsCase set.now mode s.now }
    requires graph { graph.now ≡ graph_of (plain_at set.now mode) }
    requires few { length (plain_at set.now mode).tasks ≤ 128 }
    requires end { end < length (plain_at set.now mode).tasks }
    ensures { IsTrue result ↔ (last (plain_at set.now mode) end ≡ true → ChainsTo (plain_at set.now mode) s.now end) }
{
    if !graph.is_last(end) {
        return true;
    }
    chains_to(set, mode, s, graph, end)
}

/// Whether each chain from a first task to a last task ends within the deadline.
pub(crate) fn chains_fit(set: &ModeSet, mode: u32, s: &Schedule, graph: &TaskGraph) -> bool
    requires case { IsCase set.now mode s.now }
    requires graph { graph.now ≡ graph_of (plain_at set.now mode) }
    ensures { IsTrue result ↔ ((f l : ℕ) → f < length (plain_at set.now mode).tasks → l < length (plain_at set.now mode).tasks → first (plain_at set.now mode) f ≡ true → last (plain_at set.now mode) l ≡ true → Reaches (plain_at set.now mode) f l → ChainFits (plain_at set.now mode) s.now f l) }
{
    for end in 0..task_count(set, mode) {
        if !ends_chains(set, mode, s, graph, end) {
            return false;
        }
    }
    true
}

//! The clause on the offsets of tasks. No call takes memory.

ghost use Rattle.std.specs.Prelude.{◌≡◌, ◌↔◌, ℕ, ◌<◌, ◌≤◌, IsTrue, length};
ghost use Rattle.sched_model.specs.Judged.{IsCase};
ghost use Rattle.sched_model.specs.Links.{graph_of};
ghost use Rattle.sched_model.specs.PlainMode.{plain_at};
ghost use Rattle.sched_model.specs.RightSchedule.{OffsetFits};

use crate::links::TaskGraph;
use crate::rows::{task_at, task_count};
use crate::schedule::Schedule;
use crate::schedule_times::task_start;
use app_graph::ModeSet;

/// Whether the task at the place starts within its period, where it is a first one.
fn offset_fits(set: &ModeSet, mode: u32, s: &Schedule, graph: &TaskGraph, place: usize) -> bool
    requires case { IsCase set.now mode s.now }
    requires graph { graph.now ≡ graph_of (plain_at set.now mode) }
    requires few { length (plain_at set.now mode).tasks ≤ 128 }
    requires place { place < length (plain_at set.now mode).tasks }
    ensures { IsTrue result ↔ OffsetFits (plain_at set.now mode) s.now place }
{
    if !graph.is_first(place) {
        return true;
    }
    task_start(s, place) < task_at(set, mode, place).period
}

/// Whether each first task starts within its period.
pub(crate) fn offsets_fit(set: &ModeSet, mode: u32, s: &Schedule, graph: &TaskGraph) -> bool
    requires case { IsCase set.now mode s.now }
    requires graph { graph.now ≡ graph_of (plain_at set.now mode) }
    ensures { IsTrue result ↔ ((a : ℕ) → a < length (plain_at set.now mode).tasks → OffsetFits (plain_at set.now mode) s.now a) }
{
    for place in 0..task_count(set, mode) {
        if !offset_fits(set, mode, s, graph, place) {
            return false;
        }
    }
    true
}

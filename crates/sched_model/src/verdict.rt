//! Whether a schedule is right.

ghost use Rattle.std.specs.Prelude.{◌≡◌, ◌<◌, ◌≤◌, IfErr, OnOk, length};
ghost use Rattle.app_graph.specs.Validation.{KeepsRules};
ghost use Rattle.sched_model.specs.FirstBroken.{BreaksFirst};
ghost use Rattle.sched_model.specs.Judged.{IsCase};
ghost use Rattle.sched_model.specs.Links.{graph_of};
ghost use Rattle.sched_model.specs.PlainMode.{hyper, plain_at};
ghost use Rattle.sched_model.specs.RightSchedule.{HasShape, IsSchedule};
ghost use Rattle.sched_model.specs.TimeLimits.{HasTimes};

use crate::chain_clause::chains_fit;
use crate::laws::one_hyperperiod_decides;
use crate::links::TaskGraph;
use crate::message_clause::messages_fit;
use crate::node_clause::nodes_fit;
use crate::numbers::ticks_of;
use crate::round_clauses::{gaps_fit, rounds_fit};
use crate::schedule::Schedule;
use crate::table_clauses::{entries_fit, served_once};
use crate::task_clause::offsets_fit;
use app_graph::ModeSet;

/// The first clause that the schedule breaks, from S1 to S8.
fn first_broken(
    set: &ModeSet,
    mode: u32,
    s: &Schedule,
    graph: &TaskGraph,
    ticks: u64,
) -> Result<(), u8>
    requires case { IsCase set.now mode s.now }
    requires graph { graph.now ≡ graph_of (plain_at set.now mode) }
    requires ticks { ticks ≡ hyper (plain_at set.now mode) }
    requires limits { (1 ≤ ticks) × (ticks ≤ 1000000000000) }
    ensures ok { OnOk result (IsSchedule (plain_at set.now mode) (length s.now.starts) s.now) }
    ensures err { IfErr result (λ clause. BreaksFirst (plain_at set.now mode) s.now clause) }
{
    one_hyperperiod_decides();
    if !rounds_fit(set, mode, s, ticks) {
        return Err(1);
    }
    if !gaps_fit(set, mode, s, ticks) {
        return Err(2);
    }
    if !offsets_fit(set, mode, s, graph) {
        return Err(3);
    }
    if !messages_fit(set, mode, s, graph) {
        return Err(4);
    }
    if !chains_fit(set, mode, s, graph) {
        return Err(5);
    }
    if !nodes_fit(set, mode, s) {
        return Err(6);
    }
    if !served_once(set, mode, s, graph, ticks) {
        return Err(7);
    }
    if !entries_fit(set, mode, s, graph, ticks) {
        return Err(8);
    }
    Ok(())
}

/// Whether the schedule is right for the mode of this number: `Ok` exactly where it keeps the clauses S1 to S8 of `docs/PLAN_DOCUMENT.md`,
/// and else the number of the first one that it breaks. It takes no memory.
///
/// The schedule has the shape of the mode: at least one round, a table for each round, a start for each task and a window for each
/// message, both in file order, and in its tables numbers of messages of the mode alone. Its times are from 0 to 2,000,000,000,000 ticks.
pub fn verify(set: &ModeSet, mode: u32, s: &Schedule) -> Result<(), u8>
    requires rules { KeepsRules set.now }
    requires mode { mode < length set.now.modes }
    requires shape { HasShape (plain_at set.now mode) (length s.now.starts) s.now }
    requires times { HasTimes s.now }
    ensures ok { OnOk result (IsSchedule (plain_at set.now mode) (length s.now.starts) s.now) }
    ensures err { IfErr result (λ clause. BreaksFirst (plain_at set.now mode) s.now clause) }
{
    let graph = TaskGraph::of(set, mode);
    first_broken(set, mode, s, &graph, ticks_of(set, mode))
}

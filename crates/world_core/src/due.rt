//! The tasks of a mode by the ticks in which their runs start and end, and the next tick in which something is due.

ghost use Rattle.std.specs.Prelude.{◌≡◌, ◌++◌, ◌+◌, ◌%◌, ◌<◌, ◌≤◌, All, IfOk, length, map, filter, nat_eq, slice_index_or, unsigned_abs};
ghost use Rattle.std.specs.List.{flat_map};
ghost use Rattle.app_graph.specs.Validation.{KeepsRules};
ghost use Rattle.node_tables.specs.PartLimits.{IsTaskRow};
ghost use Rattle.sched_model.specs.Numbers.{below};
ghost use Rattle.sched_model.specs.PlainMode.{plain_at};
ghost use Rattle.sched_model.specs.RightSchedule.{IsSchedule};
ghost use Rattle.sched_model.specs.TimeLimits.{IsTime};
ghost use Rattle.world_core.specs.Due.{HasPeriod, IsDueTask, IsQuiet, NeverAt, NoRound, NoTask, due_place, due_row, in_order, on_node, ordered_tasks};

use app_graph::ModeSet;
use node_tables::make_tasks;
use sched_model::{Schedule, TaskRow, apps_of};
use std::alloc::{AllocError, Global};
use tick_num::Time;

/// A task. Its runs start and end at the ticks that leave `start` and `end` modulo its period.
#[derive(Clone, Copy, Drop)]
pub(crate) struct DueTask {
    /// Its number over the file.
    pub(crate) number: u32,
    /// The number of its node.
    pub(crate) node: u32,
    /// Its period, in ticks.
    pub(crate) period: u64,
    pub(crate) start: u64,
    pub(crate) end: u64,
}

/// The task, whose first run starts at `offset`.
fn due_task(task: &TaskRow, offset: Time) -> DueTask
    requires period { 1 ≤ task.now.period }
    requires wcet { task.now.wcet ≤ 1000000000 }
    requires offset { IsTime offset }
    ensures { result ≡ due_row task.now offset }
{
    let start = offset.unsigned_abs();
    DueTask {
        number: task.number,
        node: task.node,
        period: task.period,
        start: start % task.period,
        end: (start + task.wcet) % task.period,
    }
}

/// The tasks with their offsets, in the same order.
fn due_tasks(alloc: Global, tasks: &[TaskRow], offsets: &[Time]) -> Result<Vec<DueTask>, AllocError>
    requires each { length offsets.now ≡ length tasks.now }
    requires limits { All IsTaskRow tasks.now }
    requires periods { All HasPeriod tasks.now }
    requires times { All IsTime offsets.now }
    ensures { IfOk result (λ v. v.items
        ≡ map (due_place tasks.now offsets.now) (below (length tasks.now))) }
{
    let mut due = Vec::new(alloc);
    for (place, task) in tasks.iter().enumerate() {
        due.push(due_task(task, offsets[place]))?;
    }
    Ok(due)
}

/// Adds those of the tasks that are on the node.
fn add_on(ordered: &mut Vec<DueTask>, tasks: &[DueTask], node: u32) -> Result<(), AllocError>
    ensures { IfOk result (λ _. ordered.new.items ≡ ordered.old.items ++ on_node tasks.now node) }
{
    for task in tasks {
        if task.node == node {
            ordered.push(*task)?;
        }
    }
    Ok(())
}

/// The tasks by node number, those of a node in the same order.
fn by_node(alloc: Global, tasks: &[DueTask], nodes: usize) -> Result<Vec<DueTask>, AllocError>
    requires { nodes ≤ 64 }
    ensures { IfOk result (λ v. v.items ≡ in_order tasks.now nodes) }
{
    let mut ordered = Vec::new(alloc);
    for node in 0..nodes {
        add_on(&mut ordered, tasks, node as u32)?;
    }
    Ok(ordered)
}

/// The tasks of the mode by node number, those of a node in file order.
pub(crate) fn tasks_by_node(
    alloc: Global,
    set: &ModeSet,
    schedule: &Schedule,
    mode: u32,
) -> Result<Vec<DueTask>, AllocError>
    requires rules { KeepsRules set.now }
    requires mode { mode < length set.now.modes }
    requires right { IsSchedule (plain_at set.now mode) (length schedule.now.starts) schedule.now }

    ensures tasks { IfOk result (λ v. v.items ≡ ordered_tasks (length set.now.nodes)
        (record { mode = plain_at set.now mode; schedule = schedule.now })) }
    ensures each { IfOk result (λ v. All IsDueTask v.items) }
{
    let rows = make_tasks(alloc, apps_of(set, mode))?;
    let tasks = due_tasks(alloc, rows.as_slice(), schedule.tasks.as_slice())?;
    by_node(alloc, tasks.as_slice(), set.nodes.as_slice().len())
}

/// The first tick from `tick` on that leaves `place` modulo the period.
fn next_at(tick: u64, place: u64, period: u64) -> u64
    requires tick { tick ≤ 1000000000000 }
    requires period { (1 ≤ period) × (period ≤ 1000000000) }
    requires place { place < period }
    ensures from { tick ≤ result }
    ensures none { NeverAt tick result place period }
{
    let past = tick % period;
    if past <= place {
        tick + (place - past)
    } else {
        tick + (period - past + place)
    }
}

/// The first tick from `tick` on in which a run of the task starts or ends.
fn next_of(task: &DueTask, tick: u64) -> u64
    requires task { IsDueTask task.now }
    requires tick { tick ≤ 1000000000000 }
    ensures from { tick ≤ result }
    ensures ends { NeverAt tick result task.now.end task.now.period }
    ensures starts { NeverAt tick result task.now.start task.now.period }
{
    let end = next_at(tick, task.end, task.period);
    let start = next_at(tick, task.start, task.period);
    end.min(start)
}

/// The least of `most` and the first tick from `tick` on in which a run of one of the tasks starts
/// or ends.
fn next_task(tasks: &[DueTask], tick: u64, most: u64) -> u64
    requires tasks { All IsDueTask tasks.now }
    requires tick { tick ≤ most }
    requires most { most ≤ 1000000000000 }
    ensures from { tick ≤ result }
    ensures most { result ≤ most }
    ensures quiet { NoTask tasks.now tick result }
{
    let mut next = most;
    for task in tasks {
        next = next.min(next_of(task, tick));
    }
    next
}

/// The sooner of `next` and `start`, where `start` is not before `tick`.
fn sooner(start: u64, tick: u64, next: u64) -> u64
    requires next { tick ≤ next }
    ensures from { tick ≤ result }
    ensures most { result ≤ next }
    ensures start { tick ≤ start → result ≤ start }
{
    if start < tick {
        return next;
    }
    next.min(start)
}

/// The least of `most` and the first tick from `tick` on in which one of the rounds with these
/// starts begins.
fn next_round(starts: &[Time], tick: u64, most: u64) -> u64
    requires tick { tick ≤ most }
    ensures from { tick ≤ result }
    ensures most { result ≤ most }
    ensures quiet { NoRound starts.now tick result }
{
    let mut next = most;
    for start in starts {
        next = sooner(start.unsigned_abs(), tick, next);
    }
    next
}

/// The least of `most` and the first tick from `tick` on in which something is due.
pub(crate) fn next_due(tasks: &[DueTask], starts: &[Time], tick: u64, most: u64) -> u64
    requires tasks { All IsDueTask tasks.now }
    requires tick { tick ≤ most }
    requires most { most ≤ 1000000000000 }
    ensures from { tick ≤ result }
    ensures most { result ≤ most }
    ensures quiet { IsQuiet tasks.now starts.now tick result }
{
    next_round(starts, tick, next_task(tasks, tick, most))
}

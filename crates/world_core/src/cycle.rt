//! The entries of a hyperperiod of each mode, in the order in which a world comes to them.

ghost use Rattle.std.specs.Prelude.{◌≡◌, ◌++◌, ◌<◌, ◌≤◌, All, IfOk, [], length, map, pos, slice_index_or};
ghost use Rattle.std.specs.List.{flat_map};
ghost use Rattle.app_graph.specs.Validation.{KeepsRules};
ghost use Rattle.node_tables.specs.PartLimits.{FewSlots};
ghost use Rattle.runtime_model.specs.Plans.{AreSchedules, no_schedule, plans_of};
ghost use Rattle.sched_model.specs.Numbers.{below};
ghost use Rattle.sched_model.specs.PlainMode.{hyper, plain_at};
ghost use Rattle.sched_model.specs.RightSchedule.{IsSchedule};
ghost use Rattle.world_core.specs.Cycle.{FewRounds, due_in, ends_in, entry_in, kept_cycle, round_in, slots_in, starts_in};
ghost use Rattle.world_core.specs.Due.{IsDueTask};
ghost use Rattle.world_core.specs.WorldSteps.{opens};

use crate::due::{DueTask, next_due, tasks_by_node};
use app_graph::{ListOf, ModeSet};
use sched_model::{Schedule, hyper};
use std::alloc::{AllocError, Global};
use tick_num::Time;

/// What happens at an entry. Nodes, tasks and messages go by their numbers over the file.
#[derive(Clone, Copy, Drop, PartialEq, Eq, Debug)]
pub(crate) enum Action {
    /// A run of the task ends on the node.
    End { node: u32, task: u32 },
    /// The host sends the beacon of the round at this place of the mode, from 0.
    Beacon { round: u32 },
    /// The slot of the round, from 1, carries the message.
    Slot { slot: u8, message: u32 },
    /// A run of the task starts on the node.
    Start { node: u32, task: u32 },
}

impl Action {
    /// Whether it is a beacon.
    pub(crate) fn is_beacon(self) -> bool
        ensures { result ≡ opens self }
    {
        match self {
            Action::Beacon { .. } => true,
            Action::End { .. } | Action::Slot { .. } | Action::Start { .. } => false,
        }
    }
}

/// An entry, with its tick from the hyperperiod's start.
#[derive(Clone, Copy, Drop, PartialEq, Eq, Debug)]
pub(crate) struct Entry {
    pub(crate) tick: Time,
    pub(crate) action: Action,
}

/// The entry with this action.
fn make_entry(tick: u64, action: Action) -> Entry
    requires tick { tick ≤ 1000000000000 }
    ensures { result ≡ entry_in tick action }
{
    Entry {
        tick: tick as i64,
        action,
    }
}

/// Adds the ends that are due in the tick.
fn add_ends(entries: &mut Vec<Entry>, tasks: &[DueTask], tick: u64) -> Result<(), AllocError>
    requires tasks { All IsDueTask tasks.now }
    requires tick { tick ≤ 1000000000000 }
    ensures { IfOk result (λ _. entries.new.items ≡ entries.old.items
        ++ flat_map (ends_in tick) tasks.now) }
{
    for task in tasks {
        if task.end == tick % task.period {
            entries.push(make_entry(
                tick,
                Action::End {
                    node: task.node,
                    task: task.number,
                },
            ))?;
        }
    }
    Ok(())
}

/// Adds the starts that are due in the tick.
fn add_starts(entries: &mut Vec<Entry>, tasks: &[DueTask], tick: u64) -> Result<(), AllocError>
    requires tasks { All IsDueTask tasks.now }
    requires tick { tick ≤ 1000000000000 }
    ensures { IfOk result (λ _. entries.new.items ≡ entries.old.items
        ++ flat_map (starts_in tick) tasks.now) }
{
    for task in tasks {
        if task.start == tick % task.period {
            entries.push(make_entry(
                tick,
                Action::Start {
                    node: task.node,
                    task: task.number,
                },
            ))?;
        }
    }
    Ok(())
}

/// Adds the slots of the round's table.
fn add_slots(entries: &mut Vec<Entry>, table: &[u32], tick: u64) -> Result<(), AllocError>
    requires few { FewSlots table.now }
    requires tick { tick ≤ 1000000000000 }
    ensures { IfOk result (λ _. entries.new.items ≡ entries.old.items ++ slots_in tick table.now) }
{
    for (place, message) in table.iter().enumerate() {
        entries.push(make_entry(
            tick,
            Action::Slot {
                slot: place as u8 + 1,
                message: *message,
            },
        ))?;
    }
    Ok(())
}

/// Adds the beacon and the slots of the round at the place if it starts at the tick.
fn add_round(
    entries: &mut Vec<Entry>,
    schedule: &Schedule,
    round: usize,
    tick: u64,
) -> Result<(), AllocError>
    requires few { FewRounds schedule.now }
    requires round { round < length schedule.now.starts }
    requires tick { tick ≤ 1000000000000 }
    ensures { IfOk result (λ _. entries.new.items ≡ entries.old.items
        ++ round_in tick schedule.now round) }
{
    if schedule.starts.as_slice()[round].unsigned_abs() == tick {
        entries.push(make_entry(
            tick,
            Action::Beacon {
                round: round as u32,
            },
        ))?;
        add_slots(entries, schedule.tables.as_slice()[round].as_slice(), tick)?;
    }
    Ok(())
}

/// Adds the round that starts at the tick.
fn add_rounds(entries: &mut Vec<Entry>, schedule: &Schedule, tick: u64) -> Result<(), AllocError>
    requires few { FewRounds schedule.now }
    requires tick { tick ≤ 1000000000000 }
    ensures { IfOk result (λ _. entries.new.items ≡ entries.old.items
        ++ flat_map (round_in tick schedule.now) (below (length schedule.now.starts))) }
{
    for round in 0..schedule.starts.as_slice().len() {
        add_round(entries, schedule, round, tick)?;
    }
    Ok(())
}

/// Adds what is due in the tick: ends, then the round, then starts.
fn add_tick(
    entries: &mut Vec<Entry>,
    tasks: &[DueTask],
    schedule: &Schedule,
    tick: u64,
) -> Result<(), AllocError>
    requires tasks { All IsDueTask tasks.now }
    requires few { FewRounds schedule.now }
    requires tick { tick ≤ 1000000000000 }
    ensures { IfOk result (λ _. entries.new.items ≡ entries.old.items
        ++ due_in tasks.now schedule.now tick) }
{
    add_ends(entries, tasks, tick)?;
    add_rounds(entries, schedule, tick)?;
    add_starts(entries, tasks, tick)
}

/// What is due in the first `hyper` ticks, going from one due tick to the next.
fn due_before(
    alloc: Global,
    tasks: &[DueTask],
    schedule: &Schedule,
    hyper: u64,
) -> Result<Vec<Entry>, AllocError>
    requires tasks { All IsDueTask tasks.now }
    requires few { FewRounds schedule.now }
    requires hyper { hyper ≤ 1000000000000 }
    ensures { IfOk result (λ v. v.items ≡ flat_map (due_in tasks.now schedule.now) (below hyper)) }
{
    let mut entries = Vec::new(alloc);
    let mut tick = 0;
    while tick < hyper {
        add_tick(&mut entries, tasks, schedule, tick)?;
        tick = next_due(tasks, schedule.starts.as_slice(), tick + 1, hyper);
    }
    Ok(entries)
}

/// The entries of a hyperperiod of the mode of this number, from 0, under its schedule.
pub(crate) fn cycle(
    alloc: Global,
    set: &ModeSet,
    schedule: &Schedule,
    mode: u32,
) -> Result<Vec<Entry>, AllocError>
    requires rules { KeepsRules set.now }
    requires mode { mode < length set.now.modes }
    requires right { IsSchedule (plain_at set.now mode) (length schedule.now.starts) schedule.now }

    ensures { IfOk result (λ v. v.items ≡ kept_cycle (length set.now.nodes)
        (record { mode = plain_at set.now mode; schedule = schedule.now })) }
{
    let tasks = tasks_by_node(alloc, set, schedule, mode)?;
    let hyper = hyper(set, mode).unsigned_abs();
    due_before(alloc, tasks.as_slice(), schedule, hyper)
}

/// The schedule of the mode.
fn schedule_of<'a>(set: &ModeSet, plans: &'a [Schedule], mode: usize) -> &'a Schedule
    requires schedules { AreSchedules set.now plans.now }
    requires mode { mode < length set.now.modes }
    ensures value { result.now ≡ slice_index_or plans.now mode no_schedule }
    ensures right { IsSchedule (plain_at set.now mode) (length result.now.starts) result.now }
{
    &plans[mode]
}

/// The entries of a hyperperiod of each mode, where `plans` has the schedule of each mode in order.
pub(crate) fn cycles(
    alloc: Global,
    set: &ModeSet,
    plans: &[Schedule],
) -> Result<Vec<ListOf<Entry>>, AllocError>
    requires rules { KeepsRules set.now }
    requires schedules { AreSchedules set.now plans.now }

    ensures { IfOk result (λ v. v.items
        ≡ map (kept_cycle (length set.now.nodes)) (plans_of set.now plans.now)) }
{
    let mut cycles = Vec::new(alloc);
    for mode in 0..set.modes.as_slice().len() {
        let schedule = schedule_of(set, plans, mode);
        let entries = cycle(alloc, set, schedule, mode as u32)?;
        cycles.push(ListOf::from_vec(entries))?;
    }
    Ok(cycles)
}

/// The hyperperiod of each mode, in ticks.
pub(crate) fn hypers(alloc: Global, set: &ModeSet) -> Result<Vec<Time>, AllocError>
    requires rules { KeepsRules set.now }

    ensures { IfOk result (λ v. v.items
        ≡ map (λ i. pos (hyper (plain_at set.now i))) (below (length set.now.modes))) }
{
    let mut hypers = Vec::new(alloc);
    for mode in 0..set.modes.as_slice().len() {
        hypers.push(hyper(set, mode as u32))?;
    }
    Ok(hypers)
}

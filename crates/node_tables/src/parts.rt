//! A node's part of the plans.

ghost use Rattle.std.specs.Prelude.{◌≡◌, [], ℕ, ◌+◌, ◌-◌, ◌<◌, ◌≤◌, ◌++◌, All, IfOk, length, map, pos, slice_index_or, ◌≤ℤ◌};
ghost use Rattle.std.specs.List.{flat_map};
ghost use Rattle.app_graph.specs.Validation.{KeepsRules};
ghost use Rattle.sched_model.specs.PlainMode.{hyper, plain_at};
ghost use Rattle.sched_model.specs.RightSchedule.{IsSchedule};
ghost use Rattle.sched_model.specs.TimeLimits.{HasTimes, IsTime};
ghost use Rattle.runtime_model.specs.NodeTables.{part_of};
ghost use Rattle.runtime_model.specs.Plans.{AreSchedules, no_schedule, plan_of, plans_of};
ghost use Rattle.node_tables.specs.Image.{IsInRange};
ghost use Rattle.node_tables.specs.OwnParts.{first_message, mode_kept, release_in, round_kept, rounds_kept, slot_kept, slot_part, slots_kept, task_part, tasks_kept};
ghost use Rattle.node_tables.specs.PartLimits.{FewCopies, FewSlots, HasSizes, IsMessageRow, IsTaskRow};
ghost use Rattle.node_tables.specs.Parts.{part_in, plain_table, typed_mode, typed_table};

use crate::copies::{copy_of, table_of};
use crate::rows::{MessageRow, first_message, make_messages, make_tasks};
use crate::tables::{ModeTable, NodeTable, OwnRound, OwnSlot, OwnTask};
use app_graph::{ListOf, ModeSet};
use sched_model::{Schedule, TaskRow, apps_of, hyper};
use std::alloc::{AllocError, Global};
use tick_num::Time;

/// The tasks on the node, with their offsets.
fn own_tasks(
    alloc: Global,
    tasks: &[TaskRow],
    offsets: &[Time],
    node: u32,
) -> Result<Vec<OwnTask>, AllocError>
    requires each { length offsets.now ≡ length tasks.now }
    requires limits { All IsTaskRow tasks.now }
    ensures { IfOk result (λ v. v.items ≡ tasks_kept tasks.now offsets.now node) }
{
    let mut own = Vec::new(alloc);
    for (place, task) in tasks.iter().enumerate() {
        if task.node == node {
            own.push(OwnTask {
                number: task.number,
                period: task.period as i64,
                offset: offsets[place],
                wcet: task.wcet as i64,
            })?;
        }
    }
    Ok(own)
}

/// The release of a slot in the round that starts at `start`: the last multiple of the message's period after which its window
/// has opened.
fn release(start: Time, opens: Time, period: u64) -> Time
    requires start { IsTime start }
    requires opens { IsTime opens }
    requires period { (1 ≤ period) × (period ≤ 1000000000) }
    ensures { result ≡ release_in start opens period }
{
    let since = start - opens;
    let period = period as i64;
    since.div_euclid(period) * period
}

/// The slot with the message of this number, which stands at the place of the mode, in a round of the schedule.
fn make_slot(
    messages: &[MessageRow],
    schedule: &Schedule,
    hyper: u64,
    round: usize,
    slot: u8,
    number: u32,
    place: usize,
) -> OwnSlot
    requires round { round < length schedule.now.starts }
    requires sizes { HasSizes schedule.now (length messages.now) }
    requires times { HasTimes schedule.now }
    requires hyper { hyper ≤ 1000000000000 }
    requires messages { All IsMessageRow messages.now }
    requires few { (slot_kept messages.now schedule.now hyper round slot number).copy ≤ 4 }
    requires place { (place ≡ number - first_message messages.now) × (place < length messages.now) }
    ensures { result ≡ slot_kept messages.now schedule.now hyper round slot number }
{
    let start = schedule.starts.as_slice()[round];
    let (opens, _) = schedule.messages.as_slice()[place];
    let release = release(start, opens, messages[place].period);
    OwnSlot {
        slot,
        message: number,
        release,
        copy: copy_of(schedule, hyper, number, opens + release, start),
    }
}

/// Adds the slot with the message of this number if it is an own one.
fn add_slot(
    own: &mut Vec<OwnSlot>,
    messages: &[MessageRow],
    schedule: &Schedule,
    hyper: u64,
    round: usize,
    slot: u8,
    number: u32,
) -> Result<(), AllocError>
    requires round { round < length schedule.now.starts }
    requires sizes { HasSizes schedule.now (length messages.now) }
    requires times { HasTimes schedule.now }
    requires hyper { hyper ≤ 1000000000000 }
    requires messages { All IsMessageRow messages.now }
    requires few { (slot_kept messages.now schedule.now hyper round slot number).copy ≤ 4 }
    ensures { IfOk result (λ _. own.new.items ≡ own.old.items ++ slot_part messages.now schedule.now hyper round slot number) }
{
    let place = number.saturating_sub(first_message(messages)) as usize;
    if place < messages.len() && messages[place].role != 0 {
        own.push(make_slot(messages, schedule, hyper, round, slot, number, place))?;
    }
    Ok(())
}

/// The own slots of the round at the place.
fn own_slots(
    alloc: Global,
    messages: &[MessageRow],
    schedule: &Schedule,
    hyper: u64,
    round: usize,
) -> Result<Vec<OwnSlot>, AllocError>
    requires round { round < length schedule.now.starts }
    requires sizes { HasSizes schedule.now (length messages.now) }
    requires times { HasTimes schedule.now }
    requires hyper { hyper ≤ 1000000000000 }
    requires messages { All IsMessageRow messages.now }
    requires few { FewCopies messages.now schedule.now hyper }
    ensures { IfOk result (λ v. v.items ≡ slots_kept messages.now schedule.now hyper round (slice_index_or schedule.now.tables round [])) }
{
    let mut own = Vec::new(alloc);
    for (place, number) in table_of(schedule, round).iter().enumerate() {
        let slot = place as u8 + 1;
        add_slot(&mut own, messages, schedule, hyper, round, slot, *number)?;
    }
    Ok(own)
}

/// The round at the place, with its own slots.
fn own_round(
    alloc: Global,
    messages: &[MessageRow],
    schedule: &Schedule,
    hyper: u64,
    place: usize,
) -> Result<OwnRound, AllocError>
    requires place { place < length schedule.now.starts }
    requires sizes { HasSizes schedule.now (length messages.now) }
    requires times { HasTimes schedule.now }
    requires hyper { hyper ≤ 1000000000000 }
    requires messages { All IsMessageRow messages.now }
    requires few { FewCopies messages.now schedule.now hyper }
    ensures { IfOk result (λ r. r ≡ round_kept messages.now schedule.now hyper place) }
{
    let slots = own_slots(alloc, messages, schedule, hyper, place)?;
    Ok(OwnRound {
        start: schedule.starts.as_slice()[place],
        slots: ListOf::from_vec(slots),
    })
}

/// The rounds of the mode, each with its own slots.
fn own_rounds(
    alloc: Global,
    messages: &[MessageRow],
    schedule: &Schedule,
    hyper: u64,
) -> Result<Vec<OwnRound>, AllocError>
    requires sizes { HasSizes schedule.now (length messages.now) }
    requires times { HasTimes schedule.now }
    requires hyper { hyper ≤ 1000000000000 }
    requires messages { All IsMessageRow messages.now }
    requires few { FewCopies messages.now schedule.now hyper }
    ensures { IfOk result (λ v. v.items ≡ rounds_kept messages.now schedule.now hyper) }
{
    let mut rounds = Vec::new(alloc);
    for place in 0..schedule.starts.as_slice().len() {
        rounds.push(own_round(alloc, messages, schedule, hyper, place)?)?;
    }
    Ok(rounds)
}

/// The node's part of the mode, whose first round has this number over the file.
fn mode_part(
    alloc: Global,
    set: &ModeSet,
    mode: u32,
    schedule: &Schedule,
    first_round: u16,
    node: u32,
) -> Result<ModeTable, AllocError>
    requires rules { KeepsRules set.now }
    requires mode { mode < length set.now.modes }
    requires right { IsSchedule (plain_at set.now mode) (length schedule.now.starts) schedule.now }
    ensures { IfOk result (λ t. t ≡ typed_mode (part_in first_round node (record { mode = plain_at set.now mode; schedule = schedule.now }))) }
{
    let apps = apps_of(set, mode);
    let hyper = hyper(set, mode);
    let tasks = make_tasks(alloc, apps)?;
    let messages = make_messages(alloc, tasks.as_slice(), node, apps)?;
    let own = own_tasks(alloc, tasks.as_slice(), schedule.tasks.as_slice(), node)?;
    let rounds = own_rounds(
        alloc,
        messages.rows.as_slice(),
        schedule,
        hyper.unsigned_abs(),
    )?;
    Ok(ModeTable {
        hyper,
        first_round,
        tasks: ListOf::from_vec(own),
        messages: ListOf::from_vec(messages.own),
        rounds: ListOf::from_vec(rounds),
    })
}

/// How many rounds the schedule has.
fn round_count(set: &ModeSet, mode: u32, schedule: &Schedule) -> u16
    requires rules { KeepsRules set.now }
    requires mode { mode < length set.now.modes }
    requires right { IsSchedule (plain_at set.now mode) (length schedule.now.starts) schedule.now }
    ensures value { result ≡ length schedule.now.starts }
    ensures most { result ≤ 256 }
{
    schedule.starts.as_slice().len() as u16
}

/// The schedule of the mode.
fn schedule_of<'a>(set: &ModeSet, plans: &'a [Schedule], mode: usize) -> &'a Schedule
    requires schedules { AreSchedules set.now plans.now }
    requires mode { mode < length set.now.modes }
    ensures value { result.now ≡ slice_index_or plans.now mode no_schedule }
    ensures right { IsSchedule (plain_at set.now mode) (length result.now.starts) result.now }
{
    &plans[mode]
}

/// The part of the plans that concerns the node, where `plans` has the schedule of each mode in order.
pub fn tables_of(
    alloc: Global,
    set: &ModeSet,
    plans: &[Schedule],
    node: u32,
) -> Result<NodeTable, AllocError>
    requires rules { KeepsRules set.now }
    requires schedules { AreSchedules set.now plans.now }
    requires node { node < length set.now.nodes }
    ensures part { IfOk result (λ t. plain_table t ≡ part_of (plans_of set.now plans.now) node) }
    ensures exact { IfOk result (λ t. t ≡ typed_table (part_of (plans_of set.now plans.now) node)) }
    ensures in_range { IfOk result IsInRange }
{
    let mut modes = Vec::new(alloc);
    let mut first_round = 1;
    for mode in 0..set.modes.as_slice().len() {
        let schedule = schedule_of(set, plans, mode);
        let count = round_count(set, mode as u32, schedule);
        modes.push(mode_part(alloc, set, mode as u32, schedule, first_round, node)?)?;
        first_round += count;
    }
    Ok(NodeTable {
        node,
        modes: ListOf::from_vec(modes),
    })
}

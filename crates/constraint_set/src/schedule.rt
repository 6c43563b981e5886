//! The schedule of a full list of choices and a value for each variable.

ghost use Rattle.std.specs.Prelude.{◌≡◌, [], ◌∷◌, ◌++◌, ◌+◌, ◌-◌, ◌*◌, ◌/◌, ◌%◌, ◌<◌, ◌≤◌, IfOk, cond, length, map, nat_eq, pos, slice_index_or};
ghost use Rattle.std.specs.List.{list_any};
ghost use Rattle.tick_num.specs.Differences.{listed};
ghost use Rattle.sched_model.specs.Numbers.{below, natural};
ghost use Rattle.sched_model.specs.PlainMode.{hyper, copy_count, message_at};
ghost use Rattle.sched_model.specs.ConstraintProblem.{choice, closes_var, decisions, opens_var, place, vars};
ghost use Rattle.sched_model.specs.PrintedSchedule.{names, schedule_of, table_of};
ghost use Rattle.sched_model.specs.ModeLimits.{IsLimited};
ghost use Rattle.sched_model.specs.ValidMode.{IsValid};

use crate::frame::{Frame, Rounds};
use crate::loads::place_of_round;
use app_graph::ListOf;
use sched_model::Schedule;
use std::alloc::{AllocError, Global};
use tick_num::Time;

/// The values of so many variables from the place on.
fn values_from(
    alloc: Global,
    values: &[Time],
    from: usize,
    count: u32,
) -> Result<Vec<Time>, AllocError>
    requires { from + count ≤ length values.now }
    ensures { IfOk result (λ v. v.items ≡ map (λ k. listed values.now (from + k)) (below count)) }
{
    let mut times = Vec::new(alloc);
    for k in 0..count {
        times.push(values[from + k as usize])?;
    }
    Ok(times)
}

/// Where the windows of so many messages open and close, whose variables stand from the place on.
fn windows_from(
    alloc: Global,
    values: &[Time],
    from: usize,
    count: u32,
) -> Result<Vec<(Time, Time)>, AllocError>
    requires { from + 2 * count ≤ length values.now }

    ensures { IfOk result (λ v. v.items ≡ map
        (λ i. (listed values.now (from + 2 * i), listed values.now (from + 2 * i + 1)))
        (below count)) }
{
    let mut windows = Vec::new(alloc);
    for i in 0..count {
        let opens = from + 2 * i as usize;
        windows.push((values[opens], values[opens + 1]))?;
    }
    Ok(windows)
}

/// Whether one of so many choices from the place on names the round at its place.
fn is_named(choices: &[i64], first: usize, count: u64, rounds: Rounds, round: u32) -> bool
    requires within { first + count ≤ length choices.now }

    ensures { result ≡ list_any
        (λ k. nat_eq ((natural (slice_index_or choices.now (first + k) (pos 0)) - 1) % rounds) round)
        (below count) }
{
    for k in 0..count {
        if place_of_round(choices[first + k as usize], rounds) == round as u64 {
            return true;
        }
    }
    false
}

/// Adds the number of the message at the place where one of its choices, which stand from `first` on, names the round.
#[tactic(auto, using(crate::proofs::BaseLists::message_some, crate::proofs::TableLemmas::serves_fit))]
fn add_named(
    numbers: &mut Vec<u32>,
    frame: &Frame,
    rounds: Rounds,
    choices: &[i64],
    message: u32,
    first: usize,
    round: u32,
) -> Result<usize, AllocError>
    requires message { message < length frame.now.messages }
    requires first { first ≡ place frame.now message 0 }
    requires full { length choices.now ≡ length (decisions frame.now) }

    ensures { IfOk result (λ next.
        (next ≡ first + copy_count frame.now (message_at frame.now message))
        × (numbers.new.items ≡ numbers.old.items
        ++ cond (names frame.now rounds choices.now round message)
        ((message_at frame.now message).number ∷ []) [])) }
{
    let count = frame.copies_of(message);
    if is_named(choices, first, count, rounds, round) {
        numbers.push(frame.message(message).number())?;
    }
    Ok(first + count as usize)
}

/// The numbers of the messages with a choice that names the round at its place, in file order.
fn make_table(
    alloc: Global,
    frame: &Frame,
    rounds: Rounds,
    choices: &[i64],
    round: u32,
) -> Result<ListOf<u32>, AllocError>
    requires full { length choices.now ≡ length (decisions frame.now) }
    ensures { IfOk result (λ table. table ≡ table_of frame.now rounds choices.now round) }
{
    let mut numbers = Vec::new(alloc);
    let mut first = 0;
    for message in 0..frame.message_count() {
        first = add_named(&mut numbers, frame, rounds, choices, message, first, round)?;
    }
    Ok(ListOf::from_vec(numbers))
}

/// The tables of the rounds.
fn make_tables(
    alloc: Global,
    frame: &Frame,
    rounds: Rounds,
    choices: &[i64],
) -> Result<Vec<ListOf<u32>>, AllocError>
    requires full { length choices.now ≡ length (decisions frame.now) }

    ensures { IfOk result (λ v. v.items ≡ map (table_of frame.now rounds choices.now)
        (below rounds)) }
{
    let mut tables = Vec::new(alloc);
    for round in 0..rounds.get() {
        tables.push(make_table(alloc, frame, rounds, choices, round)?)?;
    }
    Ok(tables)
}

/// The schedule of a full list of choices and a value for each variable.
pub(crate) fn make_schedule(
    alloc: Global,
    frame: &Frame,
    rounds: Rounds,
    choices: &[i64],
    values: &[Time],
) -> Result<Schedule, AllocError>
    requires full { length choices.now ≡ length (decisions frame.now) }
    requires values { length values.now ≡ vars frame.now rounds }

    ensures { IfOk result (λ s. s ≡ schedule_of frame.now rounds choices.now (listed values.now)) }
{
    let count = rounds.get();
    let tasks = count as usize;
    let messages = tasks + frame.task_count() as usize;
    let starts = values_from(alloc, values, 0, count)?;
    let offsets = values_from(alloc, values, tasks, frame.task_count())?;
    let windows = windows_from(alloc, values, messages, frame.message_count())?;
    let tables = make_tables(alloc, frame, rounds, choices)?;
    Ok(Schedule {
        starts: ListOf::from_vec(starts),
        tasks: ListOf::from_vec(offsets),
        messages: ListOf::from_vec(windows),
        tables: ListOf::from_vec(tables),
    })
}

//! The rules on the sizes of a mode.

ghost use Rattle.std.specs.Prelude.{◌≡◌, ℕ, ◌+◌, ◌-◌, ◌*◌, ◌/◌, ◌<◌, ◌≤◌, ◌++◌, All, MatchOption, SomeIff, count_by, length, map, nat_le, pos, sum_by, unsigned_abs, ◌<ℤ◌};
ghost use Rattle.std.specs.List.{flat_map};
ghost use Rattle.std.specs.Str.{bytes_eq};
ghost use Rattle.app_graph.specs.Checks.{Checks};
ghost use Rattle.app_graph.specs.Hyperperiod.{lcm};
ghost use Rattle.app_graph.specs.Rules.{each, unless};
ghost use Rattle.app_graph.specs.ValueRules.{hyper_of, pairs_in, runs_in, size_values, sizes_at, slots_in, slots_of};

use crate::checks::few;
use crate::faults::GraphFault;
use crate::keys::Key;
use crate::names::is_same;
use crate::raw::{RawApp, RawMessage, RawMode, RawSet, RawTask};
use std::alloc::Global;
use tick_num::lcm_up_to;

/// The least common multiple of the two; None where it is above the limit of a hyperperiod.
fn lcm_within(hyper: u64, period: i64) -> Option<u64>
    requires hyper { (0 < hyper) × (hyper ≤ 1000000000000) }
    requires period { pos 0 <ℤ period }
    ensures { let l = lcm hyper (unsigned_abs period) in MatchOption result (1000000000000 < l) (λ r. (r ≡ l) × (0 < l) × (l ≤ 1000000000000)) }
{
    match lcm_up_to(hyper as i64, period, 1_000_000_000_000) {
        Some(multiple) => Some(multiple.unsigned_abs()),
        None => None,
    }
}

/// The hyperperiod of the mode, in ticks; None where it is above its limit.
fn hyper_within(mode: &RawMode) -> Option<u64>
    requires { All (λ a. pos 0 <ℤ a.period) mode.now.apps }
    ensures { let h = hyper_of mode.now in MatchOption result (1000000000000 < h) (λ r. (r ≡ h) × (h ≤ 1000000000000)) }
{
    let mut hyper = 1;
    for app in mode.apps.as_slice() {
        hyper = lcm_within(hyper, app.period)?;
    }
    Some(hyper)
}

/// What is left where `count` things that come `each` times are taken away; None where that is less than nothing.
fn less(left: u64, count: usize, each: u64) -> Option<u64>
    ensures { SomeIff result (count * each ≤ left) (left - count * each) }
{
    left.checked_sub((count as u64).checked_mul(each)?)
}

/// What is left of the limit after the task runs of a hyperperiod; None where they are above it.
fn left_after_runs(apps: &[RawApp], hyper: u64, limit: u64) -> Option<u64>
    requires { All (λ a. pos 0 <ℤ a.period) apps.now }
    ensures { let n = runs_in hyper (λ a. length a.tasks) apps.now in MatchOption result (limit < n) (λ left. left + n ≡ limit) }
{
    let mut left = limit;
    for app in apps {
        left = less(
            left,
            app.tasks.as_slice().len(),
            hyper / app.period.unsigned_abs(),
        )?;
    }
    Some(left)
}

/// What is left of the limit after the copies of the messages, which come `each` times; None where they are above it.
#[tactic(auto, unfolding(crate::specs::ValueRules::slots_of))]
fn left_after_copies(messages: &[RawMessage], each: u64, limit: u64) -> Option<u64>
    ensures { let n = slots_of each messages.now in
        MatchOption result (limit < n) (λ left. left + n ≡ limit) }
{
    let mut left = limit;
    for message in messages {
        left = left.checked_sub(message.copies.unsigned_abs().checked_mul(each)?)?;
    }
    Some(left)
}

/// What is left of the limit after the copies of messages in a hyperperiod; None where they are above it.
fn left_after_messages(apps: &[RawApp], hyper: u64, limit: u64) -> Option<u64>
    requires { All (λ a. pos 0 <ℤ a.period) apps.now }
    ensures { let n = slots_in hyper apps.now in
        MatchOption result (limit < n) (λ left. left + n ≡ limit) }
{
    let mut left = limit;
    for app in apps {
        let each = hyper / app.period.unsigned_abs();
        left = left_after_copies(app.messages.as_slice(), each, left)?;
    }
    Some(left)
}

/// How many of the tasks are on the node of the task.
fn beside(task: &RawTask, tasks: &[RawTask]) -> usize
    ensures { result ≡ count_by (λ u. bytes_eq task.now.node u.node) tasks.now }
{
    tasks
        .iter()
        .filter(|other| is_same(&task.node, &other.node))
        .count()
}

/// What is left of the limit after the pairs of the task with the tasks and with those of the applications.
fn left_after_task(task: &RawTask, tasks: &[RawTask], apps: &[RawApp], limit: u64) -> Option<u64>
    ensures { let n = count_by (λ u. bytes_eq task.now.node u.node) tasks.now + sum_by (λ a. count_by (λ u. bytes_eq task.now.node u.node) a.tasks) apps.now in MatchOption result (limit < n) (λ left. left + n ≡ limit) }
{
    let mut left = limit.checked_sub(beside(task, tasks) as u64)?;
    for app in apps {
        left = left.checked_sub(beside(task, app.tasks.as_slice()) as u64)?;
    }
    Some(left)
}

/// What is left of the limit after the pairs that the tasks are the first of.
fn left_after_tasks(tasks: &[RawTask], apps: &[RawApp], limit: u64) -> Option<u64>
    ensures { let n = pairs_in (tasks.now ++ flat_map (λ a. a.tasks) apps.now) in let m = pairs_in (flat_map (λ a. a.tasks) apps.now) in MatchOption result (limit + m < n) (λ left. left + n ≡ limit + m) }
{
    let mut left = limit;
    for (i, task) in tasks.iter().enumerate() {
        left = left_after_task(task, &tasks[i + 1..], apps, left)?;
    }
    Some(left)
}

/// What is left of the limit after the pairs of tasks on one node; None where they are above it.
fn left_after_pairs(apps: &[RawApp], limit: u64) -> Option<u64>
    ensures { let n = pairs_in (flat_map (λ a. a.tasks) apps.now) in MatchOption result (limit < n) (λ left. left + n ≡ limit) }
{
    let mut left = limit;
    for (i, app) in apps.iter().enumerate() {
        left = left_after_tasks(app.tasks.as_slice(), &apps[i + 1..], left)?;
    }
    Some(left)
}

/// What is left of the limit after the message instances and the pairs of tasks on one node; None where they are above it.
fn left_after_decisions(apps: &[RawApp], hyper: u64, limit: u64) -> Option<u64>
    requires { All (λ a. pos 0 <ℤ a.period) apps.now }
    ensures { let n = slots_in hyper apps.now + pairs_in (flat_map (λ a. a.tasks) apps.now) in MatchOption result (limit < n) (λ left. left + n ≡ limit) }
{
    left_after_pairs(apps, left_after_messages(apps, hyper, limit)?)
}

/// The deadline of the application is within the hyperperiod.
fn check_deadline(alloc: Global, app: &RawApp, hyper: u64) -> Result<(), GraphFault>
    ensures { Checks result (unless (nat_le (unsigned_abs app.now.deadline) hyper) (GraphFault.DeadlineLong app.now.name)) }
{
    if app.deadline.unsigned_abs() <= hyper {
        return Ok(());
    }
    Err(GraphFault::DeadlineLong(app.name.copy(alloc)?))
}

/// Each deadline is within the hyperperiod.
fn check_deadlines(alloc: Global, mode: &RawMode, hyper: u64) -> Result<(), GraphFault>
    ensures { Checks result (each (λ a. unless (nat_le (unsigned_abs a.deadline) hyper) (GraphFault.DeadlineLong a.name)) mode.now.apps) }
{
    for app in mode.apps.as_slice() {
        check_deadline(alloc, app, hyper)?;
    }
    Ok(())
}

/// Whether the task runs of a hyperperiod are within their limit.
fn runs_fit(apps: &[RawApp], hyper: u64) -> bool
    requires { All (λ a. pos 0 <ℤ a.period) apps.now }
    ensures { result ≡ nat_le (runs_in hyper (λ a. length a.tasks) apps.now) 4096 }
{
    left_after_runs(apps, hyper, 4096).is_some()
}

/// Whether the copies of messages in a hyperperiod are within their limit.
fn instances_fit(apps: &[RawApp], hyper: u64) -> bool
    requires { All (λ a. pos 0 <ℤ a.period) apps.now }
    ensures { result ≡ nat_le (slots_in hyper apps.now) 512 }
{
    left_after_messages(apps, hyper, 512).is_some()
}

/// Whether the copies of messages in a hyperperiod and the pairs of tasks on one node are within their limit.
fn decisions_fit(apps: &[RawApp], hyper: u64) -> bool
    requires { All (λ a. pos 0 <ℤ a.period) apps.now }
    ensures { result ≡ nat_le (slots_in hyper apps.now + pairs_in (flat_map (λ a. a.tasks) apps.now)) 4096 }
{
    left_after_decisions(apps, hyper, 4096).is_some()
}

/// The sizes of a mode whose hyperperiod is within its limit.
fn check_sizes_at(alloc: Global, set: &RawSet, mode: &RawMode, hyper: u64) -> Result<(), GraphFault>
    requires round { pos 0 <ℤ set.now.round }
    requires periods { All (λ a. pos 0 <ℤ a.period) mode.now.apps }
    ensures { Checks result (sizes_at hyper set.now mode.now) }
{
    let apps = mode.apps.as_slice();
    few(hyper <= 1_000_000_000_000, Key::KHyperperiod)?;
    check_deadlines(alloc, mode, hyper)?;
    few(hyper / set.round.unsigned_abs() <= 256, Key::KRounds)?;
    few(runs_fit(apps, hyper), Key::KRuns)?;
    few(instances_fit(apps, hyper), Key::KInstances)?;
    few(decisions_fit(apps, hyper), Key::KDecisions)
}

/// The sizes of a mode.
pub(crate) fn check_sizes(alloc: Global, set: &RawSet, mode: &RawMode) -> Result<(), GraphFault>
    requires round { pos 0 <ℤ set.now.round }
    requires periods { All (λ a. pos 0 <ℤ a.period) mode.now.apps }
    ensures { Checks result (size_values set.now mode.now) }
{
    match hyper_within(mode) {
        None => Err(GraphFault::TooMany(Key::KHyperperiod)),
        Some(hyper) => check_sizes_at(alloc, set, mode, hyper),
    }
}

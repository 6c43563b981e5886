//! First and last tasks of the graphs, and how late a task may start. No query takes memory.

ghost use Rattle.std.specs.Prelude.{◌≡◌, All, pos, ◌+ℤ◌, ◌-ℤ◌, ◌≤ℤ◌};
ghost use Rattle.std.specs.List.{list_any};
ghost use Rattle.app_graph.specs.Queries.{Times, consumes, greatest_offset_in, is_first_in, is_last_in, offset_in_app, offset_in_apps, offset_in_modes, produces};
ghost use Rattle.app_graph.specs.Validation.{KeepsRules};

use crate::mode_set::{App, Message, Mode, ModeSet};
use tick_num::Time;

fn does_consume(message: &Message, task: u32) -> bool
    ensures { result ≡ consumes message.now task }
{
    message.to.as_slice().contains(&task)
}

fn does_produce(message: &Message, task: u32) -> bool
    ensures { result ≡ produces message.now task }
{
    message.from.as_slice().contains(&task)
}

fn app_consumes(app: &App, task: u32) -> bool
    ensures { result ≡ list_any (λ m. consumes m task) app.now.messages }
{
    app.messages
        .as_slice()
        .iter()
        .any(|message| does_consume(message, task))
}

fn app_produces(app: &App, task: u32) -> bool
    ensures { result ≡ list_any (λ m. produces m task) app.now.messages }
{
    app.messages
        .as_slice()
        .iter()
        .any(|message| does_produce(message, task))
}

fn mode_consumes(mode: &Mode, task: u32) -> bool
    ensures { result ≡ list_any (λ a. list_any (λ m. consumes m task) a.messages) mode.now.apps }
{
    mode.apps
        .as_slice()
        .iter()
        .any(|app| app_consumes(app, task))
}

fn mode_produces(mode: &Mode, task: u32) -> bool
    ensures { result ≡ list_any (λ a. list_any (λ m. produces m task) a.messages) mode.now.apps }
{
    mode.apps
        .as_slice()
        .iter()
        .any(|app| app_produces(app, task))
}

fn set_consumes(set: &ModeSet, task: u32) -> bool
    ensures { result ≡ list_any (λ o. list_any (λ a. list_any (λ m. consumes m task) a.messages) o.apps) set.now.modes }
{
    set.modes
        .as_slice()
        .iter()
        .any(|mode| mode_consumes(mode, task))
}

fn set_produces(set: &ModeSet, task: u32) -> bool
    ensures { result ≡ list_any (λ o. list_any (λ a. list_any (λ m. produces m task) a.messages) o.apps) set.now.modes }
{
    set.modes
        .as_slice()
        .iter()
        .any(|mode| mode_produces(mode, task))
}

/// Whether the task with the number is a first one: whether it consumes no message.
pub fn is_first(set: &ModeSet, task: u32) -> bool
    ensures { result ≡ is_first_in set.now task }
{
    !set_consumes(set, task)
}

/// Whether the task with the number is a last one: whether it produces no message.
pub fn is_last(set: &ModeSet, task: u32) -> bool
    ensures { result ≡ is_last_in set.now task }
{
    !set_produces(set, task)
}

/// `P - 1 + D - e`.
fn latest_start(period: Time, deadline: Time, wcet: Time) -> Time
    requires period { (pos 1 ≤ℤ period) × (period ≤ℤ pos 1000000000) }
    requires deadline { (pos 1 ≤ℤ deadline) × (deadline ≤ℤ pos 1000000000000) }
    requires wcet { (pos 1 ≤ℤ wcet) × (wcet ≤ℤ period) }
    ensures { result ≡ period -ℤ pos 1 +ℤ deadline -ℤ wcet }
{
    period - 1 + deadline - wcet
}

fn app_offset(app: &App, task: u32) -> Option<Time>
    requires { Times app.now }
    ensures { result ≡ offset_in_app task app.now app.now.tasks }
{
    for candidate in app.tasks.as_slice() {
        if candidate.number == task {
            return Some(latest_start(app.period, app.deadline, candidate.wcet));
        }
    }
    None
}

fn mode_offset(mode: &Mode, task: u32) -> Option<Time>
    requires { All Times mode.now.apps }
    ensures { result ≡ offset_in_apps task mode.now.apps }
{
    for app in mode.apps.as_slice() {
        if let Some(offset) = app_offset(app, task) {
            return Some(offset);
        }
    }
    None
}

fn set_offset(set: &ModeSet, task: u32) -> Option<Time>
    requires { All (λ m. All Times m.apps) set.now.modes }
    ensures { result ≡ offset_in_modes task set.now.modes }
{
    for mode in set.modes.as_slice() {
        if let Some(offset) = mode_offset(mode, task) {
            return Some(offset);
        }
    }
    None
}

/// The greatest offset that the task with the number may have, in ticks: `P - 1 + D - e` with the period `P` and the
/// deadline `D` of its application and its wcet `e`. 0 where no task has the number.
pub fn greatest_offset(set: &ModeSet, task: u32) -> Time
    requires { KeepsRules set.now }
    ensures { result ≡ greatest_offset_in set.now task }
{
    set_offset(set, task).unwrap_or(0)
}

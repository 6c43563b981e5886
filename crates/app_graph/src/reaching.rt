//! Whether a task reaches another one. Takes no memory.

ghost use Rattle.std.specs.Prelude.{◌≡◌, ℕ, ◌+◌, ◌<◌, ◌≤◌, ◌↔◌, IsTrue, All};
ghost use Rattle.std.specs.List.{list_any};
ghost use Rattle.app_graph.specs.Reaching as spec;
ghost use Rattle.app_graph.specs.Reaching.{Between, EndsBetween, EndsWithin, HasEnds, Numbered, Reaches, count_of, edge, mode_edge};
ghost use Rattle.app_graph.specs.Validation.{KeepsRules};

use crate::mode_set::{App, Message, Mode, ModeSet};

/// Whether the task is in the set, whose lowest bit stands for the task with the number `first`.
fn is_marked(first: u32, marks: u128, task: u32) -> bool
    requires { (first ≤ task) × (task < first + 128) }
    ensures { result ≡ spec.is_marked first marks task }
{
    marks >> (task - first) & 1 == 1
}

/// Whether one of the tasks is in the set.
fn has_marked(first: u32, marks: u128, tasks: &[u32]) -> bool
    requires { Between first (first + 128) tasks.now }
    ensures { result ≡ list_any (spec.is_marked first marks) tasks.now }
{
    for task in tasks {
        if is_marked(first, marks, *task) {
            return true;
        }
    }
    false
}

/// The set with these tasks too.
fn with_tasks(first: u32, marks: u128, tasks: &[u32]) -> u128
    requires { Between first (first + 128) tasks.now }
    ensures { result ≡ spec.with_tasks first marks tasks.now }
{
    let mut marks = marks;
    for task in tasks {
        marks |= 1u128 << (*task - first);
    }
    marks
}

/// The set with the consumers of the message too, where one of its producers is in it.
fn after_message(first: u32, marks: u128, message: &Message) -> u128
    requires { HasEnds first (first + 128) message.now }
    ensures { result ≡ spec.after_message first marks message.now }
{
    if has_marked(first, marks, message.from.as_slice()) {
        with_tasks(first, marks, message.to.as_slice())
    } else {
        marks
    }
}

/// The same message by message.
fn after_app(first: u32, marks: u128, app: &App) -> u128
    requires { All (HasEnds first (first + 128)) app.now.messages }
    ensures { result ≡ spec.after_app first marks app.now }
{
    let mut marks = marks;
    for message in app.messages.as_slice() {
        marks = after_message(first, marks, message);
    }
    marks
}

/// The same application by application.
fn after_mode(first: u32, marks: u128, mode: &Mode) -> u128
    requires { EndsBetween first (first + 128) mode.now }
    ensures { result ≡ spec.after_mode first marks mode.now }
{
    let mut marks = marks;
    for app in mode.apps.as_slice() {
        marks = after_app(first, marks, app);
    }
    marks
}

/// The set with all tasks that its tasks reach in the mode.
fn closed(first: u32, marks: u128, mode: &Mode) -> u128
    requires { EndsBetween first (first + 128) mode.now }
    ensures passes { (n : ℕ) × (result ≡ spec.after_times n first marks mode.now) }
    ensures closed { spec.after_mode first result mode.now ≡ result }
{
    let mut marks = marks;
    let mut next = after_mode(first, marks, mode);
    while next != marks {
        marks = next;
        next = after_mode(first, marks, mode);
    }
    marks
}

/// Whether a task reaches another one in the mode, whose tasks have the numbers from `first` to before `end`.
fn mode_reaches(mode: &Mode, first: u32, end: u32, from: u32, to: u32) -> bool
    requires tasks { end ≤ first + 128 }
    requires ends { EndsBetween first end mode.now }
    requires from { (first ≤ from) × (from < end) }
    ensures { IsTrue result ↔ Reaches (mode_edge mode.now) from to }
{
    if to < first {
        return false;
    }
    if to >= end {
        return false;
    }
    let marks = closed(first, with_tasks(first, 0, &[from]), mode);
    is_marked(first, marks, to)
}

/// How many tasks the mode has.
fn count_tasks(mode: &Mode) -> u32
    requires { count_of mode.now ≤ 128 }
    ensures { result ≡ count_of mode.now }
{
    let mut count = 0;
    for app in mode.apps.as_slice() {
        count += app.tasks.as_slice().len() as u32;
    }
    count
}

/// Whether a task reaches another one, over the modes in order.
fn set_reaches(set: &ModeSet, from: u32, to: u32) -> bool
    requires { Numbered 0 set.now.modes }
    ensures { IsTrue result ↔ Reaches (edge set.now) from to }
{
    if from == to {
        return true;
    }
    let mut first = 0;
    for mode in set.modes.as_slice() {
        let end = first + count_tasks(mode);
        if from < end {
            return mode_reaches(mode, first, end, from, to);
        }
        first = end;
    }
    false
}

/// Whether a walk, possibly of no edge, leads from the task with the number `from` to that with the number `to`. An
/// edge leads from each producer of a message to each of its consumers.
pub fn reaches(set: &ModeSet, from: u32, to: u32) -> bool
    requires { KeepsRules set.now }
    ensures { IsTrue result ↔ Reaches (edge set.now) from to }
{
    set_reaches(set, from, to)
}

//! Tasks and messages of a mode by their places. No call takes memory.

ghost use Rattle.std.specs.Prelude.{◌≡◌, ◌<◌, ◌≤◌, length, slice_index_or, sum_by, unsigned_abs};
ghost use Rattle.app_graph.specs.Validation.{KeepsRules};
ghost use Rattle.sched_model.specs.PlainMode.{mode_at, plain_at, task_at};
ghost use Rattle.sched_model.specs.Rows.{ShowsTask, index_of, message_in, messages_in, place_in, row_of, task_in, tasks_in};

use app_graph::{App, Message, ModeSet, Task};

/// A task. Durations are in ticks.
#[derive(Clone, Copy, Debug, PartialEq, Eq, Drop)]
pub struct TaskRow {
    /// Its number over the file.
    pub number: u32,
    /// The number of its node.
    pub node: u32,
    /// How long a run takes at most.
    pub wcet: u64,
    /// The period of its application.
    pub period: u64,
    /// The deadline of its application.
    pub deadline: u64,
}

/// The applications of the mode of this number, from 0, in file order.
pub fn apps_of(set: &ModeSet, mode: u32) -> &[App]
    requires { mode < length set.now.modes }
    ensures { result.now ≡ (mode_at set.now mode).apps }
{
    set.modes.as_slice()[mode as usize].apps.as_slice()
}

/// The name of the mode of this number, from 0; empty where there is no such mode.
pub fn mode_name(set: &ModeSet, mode: u32) -> &[u8]
    ensures { result.now ≡ (mode_at set.now mode).name }
{
    match set.modes.as_slice().get(mode as usize) {
        Some(mode) => mode.name.as_bytes(),
        None => &[],
    }
}

/// How many tasks the applications have.
fn count_tasks(apps: &[App]) -> usize
    requires { length (tasks_in apps.now) ≤ 128 }
    ensures { result ≡ length (tasks_in apps.now) }
{
    let mut count = 0;
    for app in apps {
        count += app.tasks.as_slice().len();
    }
    count
}

fn row(app: &App, task: &Task) -> TaskRow
    ensures { result ≡ row_of (record { app = app.now; task = task.now }) }
{
    TaskRow {
        number: task.number,
        node: task.node,
        wcet: task.wcet.unsigned_abs(),
        period: app.period.unsigned_abs(),
        deadline: app.deadline.unsigned_abs(),
    }
}

/// The task of the applications at the place.
fn find_task(apps: &[App], place: usize) -> TaskRow
    requires { place < length (tasks_in apps.now) }
    ensures { result ≡ row_of (task_in apps.now place) }
{
    let mut left = place;
    for app in apps {
        let tasks = app.tasks.as_slice();
        if left < tasks.len() {
            return row(app, &tasks[left]);
        }
        left -= tasks.len();
    }
    unreachable!()
}

/// The place of the task with the number among the tasks of an application; their number where there is none.
fn index_of(tasks: &[Task], number: u32) -> usize
    ensures value { result ≡ index_of tasks.now number }
    ensures most { result ≤ length tasks.now }
{
    for (index, task) in tasks.iter().enumerate() {
        if task.number == number {
            return index;
        }
    }
    tasks.len()
}

/// The place of the task with the number; the number of tasks where there is none.
pub(crate) fn place_of(apps: &[App], number: u32) -> usize
    requires { length (tasks_in apps.now) ≤ 128 }
    ensures { result ≡ place_in (tasks_in apps.now) number }
{
    let mut before = 0;
    for app in apps {
        let tasks = app.tasks.as_slice();
        let index = index_of(tasks, number);
        if index < tasks.len() {
            return before + index;
        }
        before += tasks.len();
    }
    before
}

/// The message of the applications at the place, with its application.
pub(crate) fn find_message(apps: &[App], place: usize) -> (&App, &Message)
    requires { place < length (messages_in apps.now) }
    ensures app { result.0.now ≡ (message_in apps.now place).app }
    ensures message { result.1.now ≡ (message_in apps.now place).message }
{
    let mut left = place;
    for app in apps {
        let messages = app.messages.as_slice();
        if left < messages.len() {
            return (app, &messages[left]);
        }
        left -= messages.len();
    }
    unreachable!()
}

/// The period of the application, in ticks.
pub fn period_of(app: &App) -> u64
    ensures { result ≡ unsigned_abs app.now.period }
{
    app.period.unsigned_abs()
}

/// The deadline of the application, in ticks.
pub fn deadline_of(app: &App) -> u64
    ensures { result ≡ unsigned_abs app.now.deadline }
{
    app.deadline.unsigned_abs()
}

/// How many messages the applications have.
fn count_messages(apps: &[App]) -> usize
    requires { length (messages_in apps.now) ≤ 64 }
    ensures { result ≡ length (messages_in apps.now) }
{
    let mut count = 0;
    for app in apps {
        count += app.messages.as_slice().len();
    }
    count
}

/// How many tasks the mode has.
pub(crate) fn task_count(set: &ModeSet, mode: u32) -> usize
    requires rules { KeepsRules set.now }
    requires mode { mode < length set.now.modes }
    ensures value { result ≡ length (plain_at set.now mode).tasks }
    ensures most { result ≤ 128 }
{
    count_tasks(apps_of(set, mode))
}

/// How many messages the mode has.
pub(crate) fn message_count(set: &ModeSet, mode: u32) -> usize
    requires rules { KeepsRules set.now }
    requires mode { mode < length set.now.modes }
    ensures value { result ≡ length (plain_at set.now mode).messages }
    ensures most { result ≤ 64 }
{
    count_messages(apps_of(set, mode))
}

/// The task of the mode at the place.
pub(crate) fn task_at(set: &ModeSet, mode: u32, place: usize) -> TaskRow
    requires rules { KeepsRules set.now }
    requires mode { mode < length set.now.modes }
    requires place { place < length (plain_at set.now mode).tasks }
    ensures { ShowsTask result (task_at (plain_at set.now mode) place) }
{
    find_task(apps_of(set, mode), place)
}

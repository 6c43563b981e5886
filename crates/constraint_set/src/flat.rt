//! A mode in plain numbers and lists, in which tasks and messages go by their places.

ghost use Rattle.std.specs.Prelude.{◌≡◌, ◌+◌, ◌^◌, ◌<◌, ◌≤◌, ◌++◌, IfOk, length, map, unsigned_abs};
ghost use Rattle.std.specs.List.{flat_map};
ghost use Rattle.sched_model.specs.PlainMode.{message_at, plain_at, plain_task, task_at, tasks_of};
ghost use Rattle.constraint_set.specs.Flat.{message_in, mode_with, place_in, task_in};

use app_graph::{App, Message, ModeSet, Task};
use sched_model::{apps_of, deadline_of, period_of};
use std::alloc::{AllocError, Global};
use std::marker::Model;

/// A task. Times are in ticks.
#[derive(Drop)]
pub(crate) struct FlatTask {
    /// Its number over the file.
    pub(crate) number: u32,
    /// The place of its application.
    pub(crate) app: usize,
    /// The number of its node.
    pub(crate) node: u32,
    /// How long a run takes at most.
    pub(crate) wcet: u64,
    /// The period of its application.
    pub(crate) period: u64,
    /// The deadline of its application.
    pub(crate) deadline: u64,
}

impl Model for FlatTask {
    ghost use Rattle.sched_model.specs.PlainMode.{PlainTask};

    ghost Value = { PlainTask };

    ghost view = { λ t. record { number = t.number; app = t.app; node = t.node; wcet = t.wcet; period = t.period; deadline = t.deadline } };
}

/// A message. Times are in ticks.
#[derive(Drop)]
pub(crate) struct FlatMessage {
    /// Its number over the file.
    pub(crate) number: u32,
    /// The period of its application.
    pub(crate) period: u64,
    /// The deadline of its application.
    pub(crate) deadline: u64,
    /// How many round instances of a window carry it.
    pub(crate) copies: u32,
    /// The places of its producers.
    pub(crate) from: Vec<u32>,
    /// The places of its consumers.
    pub(crate) to: Vec<u32>,
}

impl Model for FlatMessage {
    ghost use Rattle.sched_model.specs.PlainMode.{PlainMessage};

    ghost Value = { PlainMessage };

    ghost view = { λ m. record { number = m.number; period = m.period; deadline = m.deadline; copies = m.copies; from = m.from.items; to = m.to.items } };
}

/// A mode. Times are in ticks.
#[derive(Drop)]
pub(crate) struct FlatMode {
    /// The number of slots in a round.
    pub(crate) slots: u32,
    /// The length of a round.
    pub(crate) round: u64,
    /// The greatest time from one round's start to the next one's.
    pub(crate) gap: u64,
    /// The periods of the applications.
    pub(crate) periods: Vec<u64>,
    /// The tasks, in file order.
    pub(crate) tasks: Vec<FlatTask>,
    /// The messages, in file order.
    pub(crate) messages: Vec<FlatMessage>,
}

impl Model for FlatMode {
    ghost use Rattle.sched_model.specs.PlainMode.{PlainMode};

    ghost Value = { PlainMode };

    ghost view = { λ m. record { slots = m.slots; round = m.round; gap = m.gap; periods = m.periods.items; tasks = m.tasks.items; messages = m.messages.items } };
}

/// The task of an application.
fn make_task(place: usize, app: &App, task: &Task) -> FlatTask
    ensures { result ≡ task_in place app.now task.now }
{
    FlatTask {
        number: task.number,
        app: place,
        node: task.node,
        wcet: task.wcet.unsigned_abs(),
        period: period_of(app),
        deadline: deadline_of(app),
    }
}

/// Adds the tasks of the application at the place.
fn add_tasks(tasks: &mut Vec<FlatTask>, place: usize, app: &App) -> Result<(), AllocError>
    ensures { IfOk result (λ _. tasks.new.items
        ≡ tasks.old.items ++ map (task_in place app.now) app.now.tasks) }
{
    for task in app.tasks.as_slice() {
        tasks.push(make_task(place, app, task))?;
    }
    Ok(())
}

/// The tasks of the applications, in file order.
fn make_tasks(alloc: Global, apps: &[App]) -> Result<Vec<FlatTask>, AllocError>
    ensures { IfOk result (λ v. v.items ≡ map plain_task (tasks_of 0 apps.now)) }
{
    let mut tasks = Vec::new(alloc);
    for (place, app) in apps.iter().enumerate() {
        add_tasks(&mut tasks, place, app)?;
    }
    Ok(tasks)
}

/// The place of the task with the number.
fn find_task(tasks: &[FlatTask], number: u32) -> u32
    requires { length tasks.now < 2 ^ 31 }
    ensures { result ≡ place_in tasks.now number }
{
    for (place, task) in tasks.iter().enumerate() {
        if task.number == number {
            return place as u32;
        }
    }
    tasks.len() as u32
}

/// The places of the tasks with the numbers.
fn find_tasks(alloc: Global, tasks: &[FlatTask], numbers: &[u32]) -> Result<Vec<u32>, AllocError>
    requires { length tasks.now < 2 ^ 31 }
    ensures { IfOk result (λ v. v.items ≡ map (place_in tasks.now) numbers.now) }
{
    numbers
        .iter()
        .map(|number| find_task(tasks, *number))
        .collect(alloc)
}

/// The message of an application.
fn make_message(
    alloc: Global,
    tasks: &[FlatTask],
    app: &App,
    message: &Message,
) -> Result<FlatMessage, AllocError>
    requires { length tasks.now < 2 ^ 31 }
    ensures { IfOk result (λ v. v ≡ message_in tasks.now app.now message.now) }
{
    Ok(FlatMessage {
        number: message.number,
        period: period_of(app),
        deadline: deadline_of(app),
        copies: message.copies,
        from: find_tasks(alloc, tasks, message.from.as_slice())?,
        to: find_tasks(alloc, tasks, message.to.as_slice())?,
    })
}

/// Adds the messages of the application.
fn add_messages(
    alloc: Global,
    messages: &mut Vec<FlatMessage>,
    tasks: &[FlatTask],
    app: &App,
) -> Result<(), AllocError>
    requires { length tasks.now < 2 ^ 31 }

    ensures { IfOk result (λ _. messages.new.items
        ≡ messages.old.items ++ map (message_in tasks.now app.now) app.now.messages) }
{
    for message in app.messages.as_slice() {
        messages.push(make_message(alloc, tasks, app, message)?)?;
    }
    Ok(())
}

/// The messages of the applications, in file order.
fn make_messages(
    alloc: Global,
    tasks: &[FlatTask],
    apps: &[App],
) -> Result<Vec<FlatMessage>, AllocError>
    requires { length tasks.now < 2 ^ 31 }

    ensures { IfOk result (λ v. v.items ≡ flat_map
        (λ a. map (message_in tasks.now a) a.messages) apps.now) }
{
    let mut messages = Vec::new(alloc);
    for app in apps {
        add_messages(alloc, &mut messages, tasks, app)?;
    }
    Ok(messages)
}

/// The periods of the applications, in file order.
fn make_periods(alloc: Global, apps: &[App]) -> Result<Vec<u64>, AllocError>
    ensures { IfOk result (λ v. v.items ≡ map (λ a. unsigned_abs a.period) apps.now) }
{
    let mut periods = Vec::new(alloc);
    for app in apps {
        periods.push(period_of(app))?;
    }
    Ok(periods)
}

/// A mode of the set's network with these periods, tasks and messages.
fn make_mode(
    set: &ModeSet,
    periods: Vec<u64>,
    tasks: Vec<FlatTask>,
    messages: Vec<FlatMessage>,
) -> FlatMode
    ensures { result ≡ mode_with set.now periods.items tasks.items messages.items }
{
    FlatMode {
        slots: set.slots,
        round: set.round.unsigned_abs(),
        gap: set.gap.unsigned_abs(),
        periods,
        tasks,
        messages,
    }
}

/// The mode of this number.
pub(crate) fn flatten(alloc: Global, set: &ModeSet, mode: u32) -> Result<FlatMode, AllocError>
    requires mode { mode < length set.now.modes }
    requires tasks { length (plain_at set.now mode).tasks < 2 ^ 31 }

    ensures { IfOk result (λ v. v ≡ plain_at set.now mode) }
{
    let apps = apps_of(set, mode);
    let periods = make_periods(alloc, apps)?;
    let tasks = make_tasks(alloc, apps)?;
    let messages = make_messages(alloc, tasks.as_slice(), apps)?;
    Ok(make_mode(set, periods, tasks, messages))
}

impl FlatMode {
    /// The number of slots in a round.
    pub(crate) fn slots(&self) -> u32
        ensures { result ≡ self.now.slots }
    {
        self.slots
    }

    /// The length of a round.
    pub(crate) fn round(&self) -> u64
        ensures { result ≡ self.now.round }
    {
        self.round
    }

    /// The greatest time from one round's start to the next one's.
    pub(crate) fn gap(&self) -> u64
        ensures { result ≡ self.now.gap }
    {
        self.gap
    }

    /// The tasks, in file order.
    pub(crate) fn tasks(&self) -> &[FlatTask]
        ensures { result.now ≡ self.now.tasks }
    {
        self.tasks.as_slice()
    }

    /// The messages, in file order.
    pub(crate) fn messages(&self) -> &[FlatMessage]
        ensures { result.now ≡ self.now.messages }
    {
        self.messages.as_slice()
    }

    /// How many tasks it has.
    pub(crate) fn task_count(&self) -> u32
        requires { length self.now.tasks ≤ 128 }
        ensures { result ≡ length self.now.tasks }
    {
        self.tasks().len() as u32
    }

    /// How many messages it has.
    pub(crate) fn message_count(&self) -> u32
        requires { length self.now.messages ≤ 64 }
        ensures { result ≡ length self.now.messages }
    {
        self.messages().len() as u32
    }

    /// The task at the place.
    pub(crate) fn task(&self, place: u32) -> &FlatTask
        requires { place < length self.now.tasks }
        ensures { result.now ≡ task_at self.now place }
    {
        &self.tasks()[place as usize]
    }

    /// The message at the place.
    pub(crate) fn message(&self, place: u32) -> &FlatMessage
        requires { place < length self.now.messages }
        ensures { result.now ≡ message_at self.now place }
    {
        &self.messages()[place as usize]
    }
}

impl FlatTask {
    /// How long a run takes at most.
    pub(crate) fn wcet(&self) -> u64
        ensures { result ≡ self.now.wcet }
    {
        self.wcet
    }

    /// The period of its application.
    pub(crate) fn period(&self) -> u64
        ensures { result ≡ self.now.period }
    {
        self.period
    }

    /// The deadline of its application.
    pub(crate) fn deadline(&self) -> u64
        ensures { result ≡ self.now.deadline }
    {
        self.deadline
    }

    /// The number of its node.
    pub(crate) fn node(&self) -> u32
        ensures { result ≡ self.now.node }
    {
        self.node
    }
}

impl FlatMessage {
    /// Its number over the file.
    pub(crate) fn number(&self) -> u32
        ensures { result ≡ self.now.number }
    {
        self.number
    }

    /// The period of its application.
    pub(crate) fn period(&self) -> u64
        ensures { result ≡ self.now.period }
    {
        self.period
    }

    /// The deadline of its application.
    pub(crate) fn deadline(&self) -> u64
        ensures { result ≡ self.now.deadline }
    {
        self.deadline
    }

    /// How many round instances of a window carry it.
    pub(crate) fn copies(&self) -> u32
        ensures { result ≡ self.now.copies }
    {
        self.copies
    }

    /// The places of its producers.
    pub(crate) fn from(&self) -> &[u32]
        ensures { result.now ≡ self.now.from }
    {
        self.from.as_slice()
    }

    /// The places of its consumers.
    pub(crate) fn to(&self) -> &[u32]
        ensures { result.now ≡ self.now.to }
    {
        self.to.as_slice()
    }
}

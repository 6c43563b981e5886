//! The mode set of a file that keeps the rules: names become numbers.

ghost use Rattle.std.specs.Prelude.{◌≡◌, ◌+◌, ◌^◌, ◌<◌, ◌≤◌, IfOk, length, pos, sum_by, ◌≤ℤ◌, All};
ghost use Rattle.app_graph.specs.Numbering.{HasCopies, HaveCopies, app_of, apps_from, message_count, message_of, messages_from, mode_of, modes_from, numbers_of, set_of, task_count, task_of, tasks_from};

use crate::lists::ListOf;
use crate::mode_set::{App, Message, Mode, ModeSet, Task};
use crate::name_places::NamedPlaces;
use crate::names::Name;
use crate::raw::{RawApp, RawMessage, RawMode, RawSet, RawTask};
use std::alloc::{AllocError, Global};

/// The names once more.
fn copy_names(alloc: Global, names: &[Name]) -> Result<ListOf<Name>, AllocError>
    ensures { IfOk result (λ v. v ≡ names.now) }
{
    let mut copies = Vec::new(alloc);
    for name in names {
        copies.push(name.copy(alloc)?)?;
    }
    Ok(ListOf::from_vec(copies))
}

/// The task with a number.
fn number_task(
    alloc: Global,
    nodes: &NamedPlaces<'_, Name>,
    number: u32,
    task: &RawTask,
) -> Result<Task, AllocError>
    ensures { IfOk result (λ t. t ≡ task_of nodes.now number task.now) }
{
    Ok(Task {
        name: task.name.copy(alloc)?,
        node: nodes.find(&task.node),
        wcet: task.wcet,
        body: task.body.copy(alloc)?,
        number,
    })
}

/// The tasks with the numbers from `first` on.
fn number_tasks(
    alloc: Global,
    nodes: &NamedPlaces<'_, Name>,
    first: u32,
    tasks: &[RawTask],
) -> Result<ListOf<Task>, AllocError>
    requires tasks { first + length tasks.now < 2 ^ 31 }
    ensures { IfOk result (λ v. v ≡ tasks_from nodes.now first tasks.now) }
{
    let mut numbered = Vec::new(alloc);
    for (i, task) in tasks.iter().enumerate() {
        numbered.push(number_task(alloc, nodes, first + i as u32, task)?)?;
    }
    Ok(ListOf::from_vec(numbered))
}

/// The numbers of the named tasks, the first of which has the number `first`.
fn numbers(
    alloc: Global,
    first: u32,
    tasks: &NamedPlaces<'_, RawTask>,
    names: &[Name],
) -> Result<ListOf<u32>, AllocError>
    requires { first + length tasks.now < 2 ^ 31 }
    ensures { IfOk result (λ v. v ≡ numbers_of first tasks.now names.now) }
{
    Ok(ListOf::from_vec(
        names
            .iter()
            .map(|name| first + tasks.find(name))
            .collect(alloc)?,
    ))
}

/// The message with a number.
fn number_message(
    alloc: Global,
    first: u32,
    tasks: &NamedPlaces<'_, RawTask>,
    number: u32,
    message: &RawMessage,
) -> Result<Message, AllocError>
    requires tasks { first + length tasks.now < 2 ^ 31 }
    requires copies { HasCopies message.now }
    ensures { IfOk result (λ m. m ≡ message_of first tasks.now number message.now) }
{
    Ok(Message {
        name: message.name.copy(alloc)?,
        from: numbers(alloc, first, tasks, message.from.as_slice())?,
        to: numbers(alloc, first, tasks, message.to.as_slice())?,
        number,
        copies: message.copies as u32,
    })
}

/// The messages with the numbers from `number` on; the first of the tasks has the number `first`.
fn number_messages(
    alloc: Global,
    first: u32,
    tasks: &NamedPlaces<'_, RawTask>,
    number: u32,
    messages: &[RawMessage],
) -> Result<ListOf<Message>, AllocError>
    requires tasks { first + length tasks.now < 2 ^ 31 }
    requires messages { number + length messages.now < 2 ^ 31 }
    requires copies { All HasCopies messages.now }
    ensures { IfOk result (λ v. v ≡ messages_from first tasks.now number messages.now) }
{
    let mut numbered = Vec::new(alloc);
    for (i, message) in messages.iter().enumerate() {
        numbered.push(number_message(alloc, first, tasks, number + i as u32, message)?)?;
    }
    Ok(ListOf::from_vec(numbered))
}

/// The application whose first task and first message have these numbers.
fn number_app(
    alloc: Global,
    nodes: &NamedPlaces<'_, Name>,
    task: u32,
    message: u32,
    app: &RawApp,
) -> Result<App, AllocError>
    requires tasks { task + length app.now.tasks < 2 ^ 31 }
    requires messages { message + length app.now.messages < 2 ^ 31 }
    requires copies { All HasCopies app.now.messages }
    ensures { IfOk result (λ a. a ≡ app_of nodes.now task message app.now) }
{
    let tasks = NamedPlaces::of(alloc, app.tasks.as_slice())?;
    Ok(App {
        name: app.name.copy(alloc)?,
        period: app.period,
        deadline: app.deadline,
        tasks: number_tasks(alloc, nodes, task, app.tasks.as_slice())?,
        messages: number_messages(alloc, task, &tasks, message, app.messages.as_slice())?,
    })
}

/// The applications of the mode, the first task and the first message of which have these numbers.
fn number_apps(
    alloc: Global,
    nodes: &NamedPlaces<'_, Name>,
    task: u32,
    message: u32,
    mode: &RawMode,
) -> Result<ListOf<App>, AllocError>
    requires tasks { task + task_count mode.now < 2 ^ 31 }
    requires messages { message + message_count mode.now < 2 ^ 31 }
    requires copies { HaveCopies mode.now.apps }
    ensures { IfOk result (λ v. v ≡ apps_from nodes.now task message mode.now.apps) }
{
    let mut numbered = Vec::new(alloc);
    let mut next_task = task;
    let mut next_message = message;
    for app in mode.apps.as_slice() {
        numbered.push(number_app(alloc, nodes, next_task, next_message, app)?)?;
        next_task += app.tasks.as_slice().len() as u32;
        next_message += app.messages.as_slice().len() as u32;
    }
    Ok(ListOf::from_vec(numbered))
}

/// How many tasks the mode has.
fn count_tasks(mode: &RawMode) -> u32
    requires { task_count mode.now < 2 ^ 31 }
    ensures { result ≡ task_count mode.now }
{
    let mut count = 0;
    for app in mode.apps.as_slice() {
        count += app.tasks.as_slice().len() as u32;
    }
    count
}

/// How many messages the mode has.
fn count_messages(mode: &RawMode) -> u32
    requires { message_count mode.now < 2 ^ 31 }
    ensures { result ≡ message_count mode.now }
{
    let mut count = 0;
    for app in mode.apps.as_slice() {
        count += app.messages.as_slice().len() as u32;
    }
    count
}

/// The mode whose first task and first message have these numbers.
fn number_mode(
    alloc: Global,
    nodes: &NamedPlaces<'_, Name>,
    task: u32,
    message: u32,
    mode: &RawMode,
) -> Result<Mode, AllocError>
    requires tasks { task + task_count mode.now < 2 ^ 31 }
    requires messages { message + message_count mode.now < 2 ^ 31 }
    requires copies { HaveCopies mode.now.apps }
    ensures { IfOk result (λ m. m ≡ mode_of nodes.now task message mode.now) }
{
    Ok(Mode {
        name: mode.name.copy(alloc)?,
        apps: number_apps(alloc, nodes, task, message, mode)?,
    })
}

/// The modes of the file.
fn number_modes(
    alloc: Global,
    nodes: &NamedPlaces<'_, Name>,
    raw: &RawSet,
) -> Result<ListOf<Mode>, AllocError>
    requires tasks { sum_by task_count raw.now.modes < 2 ^ 31 }
    requires messages { sum_by message_count raw.now.modes < 2 ^ 31 }
    requires copies { All (λ mode. HaveCopies mode.apps) raw.now.modes }
    ensures { IfOk result (λ v. v ≡ modes_from nodes.now 0 0 raw.now.modes) }
{
    let mut numbered = Vec::new(alloc);
    let mut next_task = 0;
    let mut next_message = 0;
    for mode in raw.modes.as_slice() {
        numbered.push(number_mode(alloc, nodes, next_task, next_message, mode)?)?;
        next_task += count_tasks(mode);
        next_message += count_messages(mode);
    }
    Ok(ListOf::from_vec(numbered))
}

/// The mode set that the file says.
pub(crate) fn number_set(alloc: Global, raw: &RawSet) -> Result<ModeSet, AllocError>
    requires slots { (pos 1 ≤ℤ raw.now.slots) × (raw.now.slots ≤ℤ pos 32) }
    requires nodes { length raw.now.nodes < 2 ^ 31 }
    requires tasks { sum_by task_count raw.now.modes < 2 ^ 31 }
    requires messages { sum_by message_count raw.now.modes < 2 ^ 31 }
    requires copies { All (λ mode. HaveCopies mode.apps) raw.now.modes }
    ensures { IfOk result (λ s. s ≡ set_of raw.now) }
{
    let nodes = NamedPlaces::of(alloc, raw.nodes.as_slice())?;
    Ok(ModeSet {
        slots: raw.slots as u32,
        round: raw.round,
        gap: raw.gap,
        host: nodes.find(&raw.host),
        nodes: copy_names(alloc, raw.nodes.as_slice())?,
        modes: number_modes(alloc, &nodes, raw)?,
    })
}

//! The tasks and messages of a mode by their places.

ghost use Rattle.std.specs.Prelude.{◌≡◌, ◌++◌, [], ◌∷◌, IfOk, map, filter};
ghost use Rattle.std.specs.List.{flat_map, list_any};
ghost use Rattle.node_tables.specs.OwnParts.{first_message, first_task, is_on, message_kept, message_part, message_row, message_rows, messages_kept, role_in, role_of, row_in, rows_of, sent_from};

use crate::tables::OwnMessage;
use app_graph::{App, ListOf, Message, Task};
use sched_model::{TaskRow, deadline_of, period_of};
use std::alloc::{AllocError, Global};

/// A message of a mode, and what the node does with it.
#[derive(Drop)]
pub(crate) struct MessageRow {
    /// Its number over the file.
    pub(crate) number: u32,
    /// 1 where the node sends it, 2 where it takes it, 3 for both, 0 for neither.
    pub(crate) role: u8,
    /// The period of its application, in ticks.
    pub(crate) period: u64,
}

/// The messages of a mode: those that the node keeps, and the rows of all.
#[derive(Drop)]
pub(crate) struct Messages {
    pub(crate) own: Vec<OwnMessage>,
    pub(crate) rows: Vec<MessageRow>,
}

fn task_row(app: &App, task: &Task) -> TaskRow
    ensures { result ≡ row_in app.now task.now }
{
    TaskRow {
        number: task.number,
        node: task.node,
        wcet: task.wcet.unsigned_abs(),
        period: period_of(app),
        deadline: deadline_of(app),
    }
}

/// Adds the tasks of the application.
fn add_tasks(tasks: &mut Vec<TaskRow>, app: &App) -> Result<(), AllocError>
    ensures { IfOk result (λ _. tasks.new.items ≡ tasks.old.items ++ map (row_in app.now) app.now.tasks) }
{
    for task in app.tasks.as_slice() {
        tasks.push(task_row(app, task))?;
    }
    Ok(())
}

/// The tasks of the applications, in file order.
pub fn make_tasks(alloc: Global, apps: &[App]) -> Result<Vec<TaskRow>, AllocError>
    ensures { IfOk result (λ v. v.items ≡ rows_of apps.now) }
{
    let mut tasks = Vec::new(alloc);
    for app in apps {
        add_tasks(&mut tasks, app)?;
    }
    Ok(tasks)
}

/// The number of the first task, 0 where there is none.
fn first_task(tasks: &[TaskRow]) -> u32
    ensures { result ≡ first_task tasks.now }
{
    match tasks {
        [first, ..] => first.number,
        [] => 0,
    }
}

/// The number of the first message, 0 where there is none.
pub(crate) fn first_message(messages: &[MessageRow]) -> u32
    ensures { result ≡ first_message messages.now }
{
    match messages {
        [first, ..] => first.number,
        [] => 0,
    }
}

/// Whether the task with the number is one of these, whose numbers follow each other, and is on the node.
fn is_on(tasks: &[TaskRow], node: u32, number: u32) -> bool
    ensures { result ≡ is_on tasks.now node number }
{
    let place = number.saturating_sub(first_task(tasks)) as usize;
    place < tasks.len() && tasks[place].node == node
}

/// Whether some of the tasks with these numbers is on the node.
fn is_any_on(tasks: &[TaskRow], node: u32, numbers: &[u32]) -> bool
    ensures { result ≡ list_any (is_on tasks.now node) numbers.now }
{
    numbers.iter().any(|number| is_on(tasks, node, *number))
}

/// Whether the first of the tasks with these numbers is on the node.
fn is_first_on(tasks: &[TaskRow], node: u32, numbers: &[u32]) -> bool
    ensures { result ≡ sent_from tasks.now node numbers.now }
{
    match numbers {
        [first, ..] => is_on(tasks, node, *first),
        [] => false,
    }
}

/// What a node does with a message that it sends, takes, or both.
fn role_of(sends: bool, takes: bool) -> u8
    ensures { result ≡ role_of sends takes }
{
    match (sends, takes) {
        (true, true) => 3,
        (true, false) => 1,
        (false, true) => 2,
        (false, false) => 0,
    }
}

/// What the node does with the message: the producers of a message are all on one node.
fn role_in(tasks: &[TaskRow], node: u32, message: &Message) -> u8
    ensures { result ≡ role_in tasks.now node message.now }
{
    let sends = is_first_on(tasks, node, message.from.as_slice());
    let takes = is_any_on(tasks, node, message.to.as_slice());
    role_of(sends, takes)
}

/// The numbers of those of the tasks that are on the node.
fn those_on(
    alloc: Global,
    tasks: &[TaskRow],
    node: u32,
    numbers: &[u32],
) -> Result<Vec<u32>, AllocError>
    ensures { IfOk result (λ v. v.items ≡ filter (is_on tasks.now node) numbers.now) }
{
    let mut own = Vec::new(alloc);
    for number in numbers {
        if is_on(tasks, node, *number) {
            own.push(*number)?;
        }
    }
    Ok(own)
}

/// The message, with what the node does with it.
fn make_message(
    alloc: Global,
    tasks: &[TaskRow],
    node: u32,
    role: u8,
    message: &Message,
) -> Result<OwnMessage, AllocError>
    requires { role ≡ role_in tasks.now node message.now }
    ensures { IfOk result (λ m. m ≡ message_kept tasks.now node message.now) }
{
    let producers = Vec::from_slice(alloc, message.from.as_slice())?;
    let consumers = those_on(alloc, tasks, node, message.to.as_slice())?;
    Ok(OwnMessage {
        number: message.number,
        role,
        producers: ListOf::from_vec(producers),
        consumers: ListOf::from_vec(consumers),
    })
}

/// Adds the message if it is an own one.
fn add_own(
    alloc: Global,
    own: &mut Vec<OwnMessage>,
    tasks: &[TaskRow],
    node: u32,
    role: u8,
    message: &Message,
) -> Result<(), AllocError>
    requires { role ≡ role_in tasks.now node message.now }
    ensures { IfOk result (λ _. own.new.items ≡ own.old.items ++ message_part tasks.now node message.now) }
{
    if role != 0 {
        own.push(make_message(alloc, tasks, node, role, message)?)?;
    }
    Ok(())
}

/// Adds the messages of the application.
fn add_messages(
    alloc: Global,
    messages: &mut Messages,
    tasks: &[TaskRow],
    node: u32,
    app: &App,
) -> Result<(), AllocError>
    ensures own { IfOk result (λ _. messages.new.own.items ≡ messages.old.own.items ++ flat_map (message_part tasks.now node) app.now.messages) }
    ensures rows { IfOk result (λ _. messages.new.rows.items ≡ messages.old.rows.items ++ map (message_row tasks.now node app.now) app.now.messages) }
{
    for message in app.messages.as_slice() {
        let role = role_in(tasks, node, message);
        add_own(alloc, &mut messages.own, tasks, node, role, message)?;
        messages.rows.push(MessageRow {
            number: message.number,
            role,
            period: period_of(app),
        })?;
    }
    Ok(())
}

/// The messages of the applications, in file order, where these are the applications' tasks.
pub(crate) fn make_messages(
    alloc: Global,
    tasks: &[TaskRow],
    node: u32,
    apps: &[App],
) -> Result<Messages, AllocError>
    ensures own { IfOk result (λ m. m.own.items ≡ messages_kept tasks.now node apps.now) }
    ensures rows { IfOk result (λ m. m.rows.items ≡ message_rows tasks.now node apps.now) }
{
    let mut messages = Messages {
        own: Vec::new(alloc),
        rows: Vec::new(alloc),
    };
    for app in apps {
        add_messages(alloc, &mut messages, tasks, node, app)?;
    }
    Ok(messages)
}

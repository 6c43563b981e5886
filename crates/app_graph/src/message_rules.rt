//! The rules on the messages of an application.

ghost use Rattle.std.specs.Prelude.{◌≡◌, ◌+◌, ◌++◌, filter, length, nat_le, nat_lt, sum_by};
ghost use Rattle.std.specs.List.{flat_map, list_all};
ghost use Rattle.std.specs.Str.{bytes_eq};
ghost use Rattle.app_graph.specs.Checks.{Checks};
ghost use Rattle.app_graph.specs.Rules.{each, each_after, unless};
ghost use Rattle.app_graph.specs.ValueRules.{among, inputs_of, message_values, on_one_node, tasks_named};

use crate::checks::{few, in_range, is_within};
use crate::faults::GraphFault;
use crate::keys::Key;
use crate::name_rules::{check_ends, check_name, is_earlier_message};
use crate::names::{Name, is_among, is_same};
use crate::raw::{RawApp, RawMessage, RawTask};
use std::alloc::Global;

/// The most copies of a message.
const MOST_COPIES: i64 = 4;

/// Whether the applications have fewer than 64 messages, `more` others counted too.
fn has_room(apps: &[RawApp], more: usize) -> bool
    ensures { result ≡ nat_lt (sum_by (λ a. length a.messages) apps.now + more) 64 }
{
    let mut left = 64;
    for app in apps {
        let count = app.messages.as_slice().len();
        if count >= left {
            return false;
        }
        left -= count;
    }
    more < left
}

/// Whether the tasks that are named are all on the node.
fn are_on(node: &Name, tasks: &[RawTask], names: &[Name]) -> bool
    ensures { result ≡ list_all (λ t. bytes_eq node.now t.node) (filter (λ t. among t.name names.now) tasks.now) }
{
    tasks
        .iter()
        .filter(|task| is_among(&task.name, names))
        .all(|task| is_same(node, &task.node))
}

/// Whether the tasks that are named are all on one node.
fn are_on_one_node(app: &RawApp, names: &[Name]) -> bool
    ensures { result ≡ on_one_node (tasks_named app.now names.now) }
{
    let tasks = app.tasks.as_slice();
    tasks
        .iter()
        .filter(|task| is_among(&task.name, names))
        .all(|task| are_on(&task.node, tasks, names))
}

/// The producers of the message are on one node where the test holds.
fn one_sender(alloc: Global, test: bool, message: &RawMessage) -> Result<(), GraphFault>
    ensures { Checks result (unless test (GraphFault.TwoSenders message.now.name)) }
{
    if test {
        return Ok(());
    }
    Err(GraphFault::TwoSenders(message.name.copy(alloc)?))
}

/// A message of the application after the messages `before` it there and those of the `earlier` applications.
#[tactic(auto, using(crate::proofs::Joined::length_joined))]
fn check_message(
    alloc: Global,
    app: &RawApp,
    earlier: &[RawApp],
    before: &[RawMessage],
    message: &RawMessage,
) -> Result<(), GraphFault>
    ensures { Checks result (message_values app.now (flat_map (λ a. a.messages) earlier.now ++ before.now) message.now) }
{
    check_name(
        alloc,
        &message.name,
        is_earlier_message(&message.name, earlier, before),
    )?;
    check_ends(alloc, Key::KFrom, 4, app, message.from.as_slice())?;
    check_ends(alloc, Key::KTo, 16, app, message.to.as_slice())?;
    in_range(is_within(1, MOST_COPIES, message.copies), Key::KCopies)?;
    one_sender(
        alloc,
        are_on_one_node(app, message.from.as_slice()),
        message,
    )?;
    few(has_room(earlier, before.len()), Key::KMessage)
}

/// The messages of an application after those of the `earlier` applications.
pub(crate) fn check_messages(
    alloc: Global,
    app: &RawApp,
    earlier: &[RawApp],
) -> Result<(), GraphFault>
    ensures { Checks result (each_after (message_values app.now) (flat_map (λ a. a.messages) earlier.now) app.now.messages) }
{
    let messages = app.messages.as_slice();
    for (i, message) in messages.iter().enumerate() {
        check_message(alloc, app, earlier, &messages[..i], message)?;
    }
    Ok(())
}

/// Whether the task takes 64 values at most.
fn takes_few(app: &RawApp, task: &RawTask) -> bool
    ensures { result ≡ nat_le (inputs_of app.now task.now) 64 }
{
    let mut left = 64;
    for message in app.messages.as_slice() {
        if is_among(&task.name, message.to.as_slice()) {
            let count = message.from.as_slice().len();
            if count > left {
                return false;
            }
            left -= count;
        }
    }
    true
}

/// The number of values that each task takes.
pub(crate) fn check_inputs(app: &RawApp) -> Result<(), GraphFault>
    ensures { Checks result (each (λ t. unless (nat_le (inputs_of app.now t) 64) (GraphFault.TooMany Key.KInputs)) app.now.tasks) }
{
    for task in app.tasks.as_slice() {
        few(takes_few(app, task), Key::KInputs)?;
    }
    Ok(())
}

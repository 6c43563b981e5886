//! The rules on names.

ghost use Rattle.std.specs.Prelude.{◌≡◌, ◌++◌, [], true};
ghost use Rattle.std.specs.List.{list_any, flat_map};
ghost use Rattle.app_graph.specs.Checks.{Checks};
ghost use Rattle.app_graph.specs.Rules.{each_after};
ghost use Rattle.app_graph.specs.ValueRules.{ends, is_app, is_message, is_mode, is_task, listed, named};

use crate::checks::{few, in_range, known, new_name};
use crate::faults::GraphFault;
use crate::keys::Key;
use crate::names::{Name, is_among, is_same};
use crate::raw::{RawApp, RawMessage, RawMode, RawTask};
use std::alloc::Global;
use ttw_text::is_name;

/// Whether one of the modes has the name.
pub(crate) fn is_mode_name(name: &Name, modes: &[RawMode]) -> bool
    ensures { result ≡ is_mode modes.now name.now }
{
    modes.iter().any(|mode| is_same(name, &mode.name))
}

/// Whether one of the applications has the name.
pub(crate) fn is_app_name(name: &Name, apps: &[RawApp]) -> bool
    ensures { result ≡ is_app apps.now name.now }
{
    apps.iter().any(|app| is_same(name, &app.name))
}

/// Whether one of the tasks has the name.
pub(crate) fn is_task_name(name: &Name, tasks: &[RawTask]) -> bool
    ensures { result ≡ is_task tasks.now name.now }
{
    tasks.iter().any(|task| is_same(name, &task.name))
}

/// Whether one of the messages has the name.
pub(crate) fn is_message_name(name: &Name, messages: &[RawMessage]) -> bool
    ensures { result ≡ is_message messages.now name.now }
{
    messages.iter().any(|message| is_same(name, &message.name))
}

/// Whether a task of one of the applications has the name.
fn is_task_of(name: &Name, apps: &[RawApp]) -> bool
    ensures { result ≡ list_any (λ a. is_task a.tasks name.now) apps.now }
{
    apps.iter()
        .any(|app| is_task_name(name, app.tasks.as_slice()))
}

/// Whether a message of one of the applications has the name.
fn is_message_of(name: &Name, apps: &[RawApp]) -> bool
    ensures { result ≡ list_any (λ a. is_message a.messages name.now) apps.now }
{
    apps.iter()
        .any(|app| is_message_name(name, app.messages.as_slice()))
}

/// Whether a task of one of the applications, or one of the tasks, has the name.
#[tactic(auto, using(crate::proofs::Joined::any_joined))]
pub(crate) fn is_earlier_task(name: &Name, apps: &[RawApp], tasks: &[RawTask]) -> bool
    ensures { result ≡ is_task (flat_map (λ a. a.tasks) apps.now ++ tasks.now) name.now }
{
    if is_task_of(name, apps) {
        return true;
    }
    is_task_name(name, tasks)
}

/// Whether a message of one of the applications, or one of the messages, has the name.
#[tactic(auto, using(crate::proofs::Joined::any_joined))]
pub(crate) fn is_earlier_message(name: &Name, apps: &[RawApp], messages: &[RawMessage]) -> bool
    ensures { result ≡ is_message (flat_map (λ a. a.messages) apps.now ++ messages.now) name.now }
{
    if is_message_of(name, apps) {
        return true;
    }
    is_message_name(name, messages)
}

/// The name is spelled as one and is not taken.
pub(crate) fn check_name(alloc: Global, name: &Name, taken: bool) -> Result<(), GraphFault>
    ensures { Checks result (named name.now taken) }
{
    in_range(is_name(name.as_bytes()), Key::KName)?;
    new_name(alloc, !taken, name)
}

/// One of the names under a key, after the earlier ones.
fn check_listed(
    alloc: Global,
    key: Key,
    is_known: bool,
    earlier: &[Name],
    name: &Name,
) -> Result<(), GraphFault>
    ensures { Checks result (listed key (λ _. is_known) earlier.now name.now) }
{
    in_range(is_name(name.as_bytes()), key)?;
    new_name(alloc, !is_among(name, earlier), name)?;
    known(alloc, is_known, name)
}

/// The names of the nodes.
pub(crate) fn check_nodes(alloc: Global, nodes: &[Name]) -> Result<(), GraphFault>
    ensures { Checks result (each_after (listed Key.KNodes (λ n. true)) [] nodes.now) }
{
    for (i, name) in nodes.iter().enumerate() {
        check_listed(alloc, Key::KNodes, true, &nodes[..i], name)?;
    }
    Ok(())
}

/// The names under `from` or `to`, each a task of the application.
fn check_task_names(
    alloc: Global,
    key: Key,
    tasks: &[RawTask],
    names: &[Name],
) -> Result<(), GraphFault>
    ensures { Checks result (each_after (listed key (is_task tasks.now)) [] names.now) }
{
    for (i, name) in names.iter().enumerate() {
        check_listed(alloc, key, is_task_name(name, tasks), &names[..i], name)?;
    }
    Ok(())
}

/// The producers or the consumers of a message, of which there are `most` at most.
pub(crate) fn check_ends(
    alloc: Global,
    key: Key,
    most: usize,
    app: &RawApp,
    names: &[Name],
) -> Result<(), GraphFault>
    ensures { Checks result (ends key most app.now names.now) }
{
    in_range(!names.is_empty(), key)?;
    few(names.len() <= most, key)?;
    check_task_names(alloc, key, app.tasks.as_slice(), names)
}

//! The names that the lines of a trace have, by number.

ghost use Rattle.std.specs.Prelude.{◌≡◌, ◌++◌, ◌∷◌, [], IfOk, length, map, slice_index_or};
ghost use Rattle.std.specs.List.{flat_map};
ghost use Rattle.replayer.specs.Trace.{message_name, mode_name, node_name, task_name};

use app_graph::{App, Mode, ModeSet, Name};
use std::alloc::{AllocError, Global};
use std::marker::Model;

/// Names by their places. Contracts see the list of them.
#[derive(Drop)]
struct NameList<'a> {
    names: Vec<&'a [u8]>,
}

impl<'a> Model for NameList<'a> {
    ghost use Rattle.std.specs.Prelude.{ℕ, List, map};

    ghost Value = { List (List ℕ) };

    ghost view = { λ l. map (λ name. name.now) l.names.items };
}

impl<'a> NameList<'a> {
    /// No names.
    fn none(alloc: Global) -> Self
        ensures { result ≡ [] }
    {
        NameList {
            names: Vec::new(alloc),
        }
    }

    /// Adds a name at the end.
    fn add(&mut self, name: &'a Name) -> Result<(), AllocError>
        ensures { IfOk result (λ _. self.new ≡ self.old ++ name.now ∷ []) }
    {
        self.names.push(name.as_bytes())?;
        Ok(())
    }

    /// The name at a place, empty past the last one.
    fn at(&self, place: u32) -> &[u8]
        ensures { result.now ≡ slice_index_or self.now place [] }
    {
        match self.names.get(place as usize) {
            Some(name) => name,
            None => &[],
        }
    }
}

/// The names of a set's nodes, modes, tasks and messages. Contracts see the set.
#[derive(Drop)]
pub(crate) struct Names<'a> {
    set: &'a ModeSet,
    tasks: NameList<'a>,
    messages: NameList<'a>,
}

impl<'a> Model for Names<'a> {
    ghost use Rattle.std.specs.Prelude.{◌≡◌};
    ghost use Rattle.app_graph.specs.declared.mode_set.ModeSet.{ModeSet};
    ghost use Rattle.replayer.specs.Trace.{message_names, task_names};

    ghost Value = { ModeSet };

    ghost view = { λ n. n.set.now };

    ghost invariant = { λ n.
        (n.tasks ≡ task_names n.set.now) × (n.messages ≡ message_names n.set.now) };
}

/// Adds the names of the application's tasks.
fn add_tasks<'a>(names: &mut NameList<'a>, app: &'a App) -> Result<(), AllocError>
    ensures { IfOk result (λ _. names.new ≡ names.old ++ map (λ t. t.name) app.now.tasks) }
{
    for task in app.tasks.as_slice() {
        names.add(&task.name)?;
    }
    Ok(())
}

/// Adds the names of the application's messages.
fn add_messages<'a>(names: &mut NameList<'a>, app: &'a App) -> Result<(), AllocError>
    ensures { IfOk result (λ _. names.new ≡ names.old ++ map (λ m. m.name) app.now.messages) }
{
    for message in app.messages.as_slice() {
        names.add(&message.name)?;
    }
    Ok(())
}

/// Adds the names of the tasks and of the messages of the mode.
fn add_mode<'a>(
    tasks: &mut NameList<'a>,
    messages: &mut NameList<'a>,
    mode: &'a Mode,
) -> Result<(), AllocError>
    ensures tasks { IfOk result (λ _. tasks.new
        ≡ tasks.old ++ flat_map (λ app. map (λ t. t.name) app.tasks) mode.now.apps) }
    ensures messages { IfOk result (λ _. messages.new
        ≡ messages.old ++ flat_map (λ app. map (λ m. m.name) app.messages) mode.now.apps) }
{
    for app in mode.apps.as_slice() {
        add_tasks(tasks, app)?;
        add_messages(messages, app)?;
    }
    Ok(())
}

impl<'a> Names<'a> {
    /// The names of the set.
    pub(crate) fn make(alloc: Global, set: &'a ModeSet) -> Result<Self, AllocError>
        ensures { IfOk result (λ n. n ≡ set.now) }
    {
        let mut tasks = NameList::none(alloc);
        let mut messages = NameList::none(alloc);
        for mode in set.modes.as_slice() {
            add_mode(&mut tasks, &mut messages, mode)?;
        }
        Ok(Names {
            set,
            tasks,
            messages,
        })
    }

    /// How many nodes there are.
    pub(crate) fn nodes(&self) -> usize
        ensures { result ≡ length self.now.nodes }
    {
        self.set.nodes.as_slice().len()
    }

    /// The name of a node, empty where there is none.
    pub(crate) fn node(&self, node: usize) -> &[u8]
        ensures { result.now ≡ node_name self.now node }
    {
        match self.set.nodes.as_slice().get(node) {
            Some(name) => name.as_bytes(),
            None => &[],
        }
    }

    /// The name of a mode, empty where there is none.
    pub(crate) fn mode(&self, mode: usize) -> &[u8]
        ensures { result.now ≡ mode_name self.now mode }
    {
        match self.set.modes.as_slice().get(mode) {
            Some(mode) => mode.name.as_bytes(),
            None => &[],
        }
    }

    /// The name of the task of this number, empty where there is none.
    pub(crate) fn task(&self, number: u32) -> &[u8]
        ensures { result.now ≡ task_name self.now number }
    {
        self.tasks.at(number)
    }

    /// The name of the message of this number, empty where there is none.
    pub(crate) fn message(&self, number: u32) -> &[u8]
        ensures { result.now ≡ message_name self.now number }
    {
        self.messages.at(number)
    }
}

//! The names that are due in a schedule.

ghost use Rattle.std.specs.Prelude.{◌≡◌, List, ℕ, [], ◌∷◌, ◌++◌, ◌<◌, IfOk, map, length, slice_index_or};
ghost use Rattle.proof_tree.specs.Names.{messages_in, tasks_in};

use app_graph::{App, Message, Task};
use std::alloc::{AllocError, Global};
use std::marker::Model;

/// Names in the order in which they are due. Contracts see them as a list.
#[derive(Drop)]
pub(crate) struct NameList<'a> {
    names: Vec<&'a [u8]>,
}

impl<'a> Model for NameList<'a> {
    ghost use Rattle.std.specs.Prelude.{ℕ, List, map};

    ghost Value = { List (List ℕ) };

    ghost view = { λ list. map (λ name. name.now) list.names.items };
}

impl<'a> NameList<'a> {
    fn new(alloc: Global) -> Self
        ensures { result ≡ [] }
    {
        NameList {
            names: Vec::new(alloc),
        }
    }

    fn push(&mut self, name: &'a [u8]) -> Result<(), AllocError>
        ensures { IfOk result (λ _. self.new ≡ self.old ++ name.now ∷ []) }
    {
        self.names.push(name)?;
        Ok(())
    }

    /// How many there are.
    pub(crate) fn len(&self) -> usize
        ensures { result ≡ length self.now }
    {
        self.names.len()
    }

    /// The name at the place.
    pub(crate) fn at(&self, place: usize) -> &'a [u8]
        requires { place < length self.now }
        ensures { result.now ≡ slice_index_or self.now place [] }
    {
        self.names[place]
    }
}

/// Adds the names of tasks.
fn add_tasks<'a>(list: &mut NameList<'a>, tasks: &'a [Task]) -> Result<(), AllocError>
    ensures { IfOk result (λ _. list.new ≡ list.old ++ map (λ task. task.name) tasks.now) }
{
    for task in tasks {
        list.push(task.name.as_bytes())?;
    }
    Ok(())
}

/// Adds the names of messages.
fn add_messages<'a>(list: &mut NameList<'a>, messages: &'a [Message]) -> Result<(), AllocError>
    ensures { IfOk result (λ _. list.new ≡ list.old ++ map (λ message. message.name) messages.now) }
{
    for message in messages {
        list.push(message.name.as_bytes())?;
    }
    Ok(())
}

/// The names of the tasks of applications, in file order.
pub(crate) fn task_names<'a>(alloc: Global, apps: &'a [App]) -> Result<NameList<'a>, AllocError>
    ensures { IfOk result (λ list. list ≡ map (λ task. task.name) (tasks_in apps.now)) }
{
    let mut list = NameList::new(alloc);
    for app in apps {
        add_tasks(&mut list, app.tasks.as_slice())?;
    }
    Ok(list)
}

/// The names of the messages of applications, in file order.
pub(crate) fn message_names<'a>(alloc: Global, apps: &'a [App]) -> Result<NameList<'a>, AllocError>
    ensures { IfOk result (λ list. list ≡ map (λ message. message.name) (messages_in apps.now)) }
{
    let mut list = NameList::new(alloc);
    for app in apps {
        add_messages(&mut list, app.messages.as_slice())?;
    }
    Ok(list)
}

//! The nodes of the tasks by their numbers over the file.

ghost use Rattle.std.specs.Prelude.{◌≡◌, ◌++◌, IfOk, map};
ghost use Rattle.std.specs.List.{flat_map};
ghost use Rattle.app_graph.specs.Validation.{KeepsRules};
ghost use Rattle.world_core.specs.Owners.{AreOwners, nodes_in, owners_in};

use app_graph::{App, Mode, ModeSet};
use std::alloc::{AllocError, Global};

/// Adds the nodes of the application's tasks.
fn add_app(owners: &mut Vec<u32>, app: &App) -> Result<(), AllocError>
    ensures { IfOk result (λ _. owners.new.items ≡ owners.old.items ++ nodes_in app.now) }
{
    for task in app.tasks.as_slice() {
        owners.push(task.node)?;
    }
    Ok(())
}

/// Adds the nodes of the mode's tasks.
fn add_mode(owners: &mut Vec<u32>, mode: &Mode) -> Result<(), AllocError>
    ensures { IfOk result (λ _. owners.new.items ≡ owners.old.items
        ++ flat_map nodes_in mode.now.apps) }
{
    for app in mode.apps.as_slice() {
        add_app(owners, app)?;
    }
    Ok(())
}

/// The nodes of the modes' tasks, in file order.
fn owners_of(alloc: Global, modes: &[Mode]) -> Result<Vec<u32>, AllocError>
    ensures { IfOk result (λ v. v.items ≡ owners_in modes.now) }
{
    let mut owners = Vec::new(alloc);
    for mode in modes {
        add_mode(&mut owners, mode)?;
    }
    Ok(owners)
}

/// The node of each task, by its number over the file.
pub(crate) fn owners(alloc: Global, set: &ModeSet) -> Result<Vec<u32>, AllocError>
    requires { KeepsRules set.now }
    ensures { IfOk result (λ v. AreOwners set.now v.items) }
{
    owners_of(alloc, set.modes.as_slice())
}

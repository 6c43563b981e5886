//! The rule that no task is reached from itself.

ghost use Rattle.std.specs.Prelude.{◌≡◌, ◌≤◌, IfOk, length, map, not};
ghost use Rattle.app_graph.specs.Checks.{Checks};
ghost use Rattle.app_graph.specs.Masks.{back_from, link_of, mask_of};
ghost use Rattle.app_graph.specs.Rules.{unless};
ghost use Rattle.app_graph.specs.ValueRules;
ghost use Rattle.app_graph.specs.ValueRules.{among};

use crate::faults::GraphFault;
use crate::names::{Name, is_among};
use crate::raw::{RawApp, RawMessage, RawTask};
use std::alloc::{AllocError, Global};

/// The producers and the consumers of a message, one bit for each task of the application.
#[derive(Clone, Copy, Drop)]
struct Link {
    from: u128,
    to: u128,
}

/// The tasks that are named.
fn mask(tasks: &[RawTask], names: &[Name]) -> u128
    requires { length tasks.now ≤ 128 }
    ensures { result ≡ mask_of (λ t. among t.name names.now) tasks.now }
{
    let mut mask = 0;
    for (i, task) in tasks.iter().enumerate() {
        if is_among(&task.name, names) {
            mask |= 1u128 << i;
        }
    }
    mask
}

fn make_link(tasks: &[RawTask], message: &RawMessage) -> Link
    requires { length tasks.now ≤ 128 }
    ensures { result ≡ link_of tasks.now message.now }
{
    Link {
        from: mask(tasks, message.from.as_slice()),
        to: mask(tasks, message.to.as_slice()),
    }
}

/// The graph of the application.
fn make_links(alloc: Global, app: &RawApp) -> Result<Vec<Link>, AllocError>
    requires { length app.now.tasks ≤ 128 }
    ensures { IfOk result (λ v. v.items ≡ map (link_of app.now.tasks) app.now.messages) }
{
    let tasks = app.tasks.as_slice();
    app.messages
        .as_slice()
        .iter()
        .map(|message| make_link(tasks, message))
        .collect(alloc)
}

/// The tasks from which an edge leads to one that is marked.
fn back(links: &[Link], marked: u128) -> u128
    ensures { result ≡ back_from links.now marked }
{
    let mut next = 0;
    for link in links {
        if link.to & marked != 0 {
            next |= link.from;
        }
    }
    next
}

/// Whether some task is reached from itself: whether a walk has more edges than there are tasks.
fn has_cycle(alloc: Global, app: &RawApp) -> Result<bool, AllocError>
    requires { length app.now.tasks ≤ 128 }
    ensures { IfOk result (λ b. b ≡ ValueRules.has_cycle app.now) }
{
    let links = make_links(alloc, app)?;
    let mut marked = back(links.as_slice(), u128::MAX);
    for _task in app.tasks.as_slice() {
        marked = back(links.as_slice(), marked);
    }
    Ok(marked != 0)
}

/// No task is reached from itself.
pub(crate) fn check_cycle(alloc: Global, app: &RawApp) -> Result<(), GraphFault>
    requires { length app.now.tasks ≤ 128 }
    ensures { Checks result (unless (not (ValueRules.has_cycle app.now)) (GraphFault.Cycle app.now.name)) }
{
    if has_cycle(alloc, app)? {
        return Err(GraphFault::Cycle(app.name.copy(alloc)?));
    }
    Ok(())
}

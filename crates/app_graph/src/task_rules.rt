//! The rules on the tasks of an application.

ghost use Rattle.std.specs.Prelude.{◌≡◌, ◌+◌, ◌++◌, length, nat_lt, sum_by};
ghost use Rattle.std.specs.List.{flat_map};
ghost use Rattle.app_graph.specs.Checks.{Checks};
ghost use Rattle.app_graph.specs.Rules.{each_after};
ghost use Rattle.app_graph.specs.ValueRules.{task_values};

use crate::checks::{few, in_range, is_within, known};
use crate::faults::GraphFault;
use crate::keys::Key;
use crate::name_rules::{check_name, is_earlier_task};
use crate::names::is_among;
use crate::raw::{RawApp, RawSet, RawTask};
use std::alloc::Global;
use ttw_text::is_name;

/// Whether the applications have fewer than 128 tasks, `more` others counted too.
fn has_room(apps: &[RawApp], more: usize) -> bool
    ensures { result ≡ nat_lt (sum_by (λ a. length a.tasks) apps.now + more) 128 }
{
    let mut left = 128;
    for app in apps {
        let count = app.tasks.as_slice().len();
        if count >= left {
            return false;
        }
        left -= count;
    }
    more < left
}

/// A task of the application after the tasks `before` it there and those of the `earlier` applications.
#[tactic(auto, using(crate::proofs::Joined::length_joined))]
fn check_task(
    alloc: Global,
    set: &RawSet,
    app: &RawApp,
    earlier: &[RawApp],
    before: &[RawTask],
    task: &RawTask,
) -> Result<(), GraphFault>
    ensures { Checks result (task_values set.now app.now (flat_map (λ a. a.tasks) earlier.now ++ before.now) task.now) }
{
    check_name(
        alloc,
        &task.name,
        is_earlier_task(&task.name, earlier, before),
    )?;
    in_range(is_name(task.node.as_bytes()), Key::KNode)?;
    known(
        alloc,
        is_among(&task.node, set.nodes.as_slice()),
        &task.node,
    )?;
    in_range(is_within(1, app.period, task.wcet), Key::KWcet)?;
    in_range(is_name(task.body.as_bytes()), Key::KBody)?;
    few(has_room(earlier, before.len()), Key::KTask)
}

/// The tasks of an application after those of the `earlier` applications.
pub(crate) fn check_tasks(
    alloc: Global,
    set: &RawSet,
    app: &RawApp,
    earlier: &[RawApp],
) -> Result<(), GraphFault>
    ensures { Checks result (each_after (task_values set.now app.now) (flat_map (λ a. a.tasks) earlier.now) app.now.tasks) }
{
    let tasks = app.tasks.as_slice();
    for (i, task) in tasks.iter().enumerate() {
        check_task(alloc, set, app, earlier, &tasks[..i], task)?;
    }
    Ok(())
}

//! The pairs of a mode's tasks that share a node.

ghost use Rattle.std.specs.Prelude.{◌≡◌, ◌++◌, ◌<◌, IfOk, length, map};
ghost use Rattle.std.specs.List.{flat_map};
ghost use Rattle.app_graph.specs.declared.mode_set.Task.{Task};
ghost use Rattle.sched_model.specs.Numbers.{below};
ghost use Rattle.sched_model.specs.PlainMode.{plain_at, tasks_of};
ghost use Rattle.node_use.specs.Pairs.{pair_at, pairs_of, pairs_with, row_of};

use app_graph::{App, ModeSet, Task};
use sched_model::apps_of;
use std::alloc::{AllocError, Global};

/// A task's number and the number of its node.
#[derive(Clone, Copy, Drop)]
struct TaskRow {
    number: u32,
    node: u32,
}

/// Appends the rows of the tasks.
fn push_rows(rows: &mut Vec<TaskRow>, tasks: &[Task]) -> Result<(), AllocError>
    ensures { IfOk result (λ u. rows.new.items ≡ rows.old.items ++ map (λ t. record { number = t.number; node = t.node }) tasks.now) }
{
    for task in tasks {
        rows.push(TaskRow {
            number: task.number,
            node: task.node,
        })?;
    }
    Ok(())
}

/// The rows of the applications' tasks, in file order.
fn rows_of(alloc: Global, apps: &[App]) -> Result<Vec<TaskRow>, AllocError>
    ensures { IfOk result (λ v. v.items ≡ map row_of (tasks_of 0 apps.now)) }
{
    let mut rows = Vec::new(alloc);
    for app in apps {
        push_rows(&mut rows, app.tasks.as_slice())?;
    }
    Ok(rows)
}

/// Appends the pair of rows `a` and `b` where `a` is before `b` and both are on one node.
fn push_pair(
    pairs: &mut Vec<(u32, u32)>,
    rows: &[TaskRow],
    a: usize,
    b: usize,
) -> Result<(), AllocError>
    requires first { a < length rows.now }
    requires second { b < length rows.now }
    ensures { IfOk result (λ u. pairs.new.items ≡ pairs.old.items ++ pair_at rows.now a b) }
{
    let first = rows[a];
    let second = rows[b];
    if a < b && first.node == second.node {
        pairs.push((first.number, second.number))?;
    }
    Ok(())
}

/// Appends the pairs of row `a` with the later rows on its node.
fn push_pairs(pairs: &mut Vec<(u32, u32)>, rows: &[TaskRow], a: usize) -> Result<(), AllocError>
    requires { a < length rows.now }
    ensures { IfOk result (λ u. pairs.new.items ≡ pairs.old.items ++ pairs_with rows.now a) }
{
    for b in 0..rows.len() {
        push_pair(pairs, rows, a, b)?;
    }
    Ok(())
}

/// The pairs among the rows.
fn pairs_among(alloc: Global, rows: &[TaskRow]) -> Result<Vec<(u32, u32)>, AllocError>
    ensures { IfOk result (λ v. v.items ≡ flat_map (pairs_with rows.now) (below (length rows.now))) }
{
    let mut pairs = Vec::new(alloc);
    for a in 0..rows.len() {
        push_pairs(&mut pairs, rows, a)?;
    }
    Ok(pairs)
}

/// The pairs of tasks of the mode on one node, by the tasks' numbers: the earlier one in file order first, in the order of their decisions.
/// `Err` for want of memory alone.
pub fn pairs(alloc: Global, set: &ModeSet, mode: u32) -> Result<Vec<(u32, u32)>, AllocError>
    requires { mode < length set.now.modes }
    ensures { IfOk result (λ v. v.items ≡ pairs_of (plain_at set.now mode)) }
{
    let rows = rows_of(alloc, apps_of(set, mode))?;
    pairs_among(alloc, rows.as_slice())
}

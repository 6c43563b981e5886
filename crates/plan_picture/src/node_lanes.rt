//! The lanes of the nodes.

ghost use Rattle.std.specs.Prelude.{◌≡◌, ◌++◌, [], ◌∷◌, IfOk, OnOk};
ghost use Rattle.std.specs.List.{flat_map, zip};
ghost use Rattle.plan_picture.specs.Picture as picture;
ghost use Rattle.plan_picture.specs.Picture.{node_rows, run_rows};

use crate::texts::{behind, text};
use app_graph::{App, ListOf, Task};
use std::alloc::{AllocError, Global};
use tick_num::Time;
use time_chart::{Look, Row, Span};
use ttw_text::Out;

/// The runs of a task, which recur after a period, from the start of the first one.
fn run_span(alloc: Global, period: u64, task: &Task, start: Time) -> Result<Span, AllocError>
    ensures { IfOk result (λ span. span ≡ picture.run_span period (task.now, start)) }
{
    Ok(Span {
        look: Look::Run,
        name: text(alloc, task.name.as_bytes())?,
        start: start.unsigned_abs(),
        length: task.wcet.unsigned_abs(),
        period,
    })
}

/// The row of a task.
fn run_row(alloc: Global, period: u64, task: &Task, start: Time) -> Result<Row, AllocError>
    ensures { IfOk result (λ row. row ≡ picture.run_row period (task.now, start)) }
{
    let mut spans = Vec::new(alloc);
    spans.push(run_span(alloc, period, task, start)?)?;
    Ok(Row {
        lane: Out::make(alloc),
        name: text(alloc, task.name.as_bytes())?,
        spans: ListOf::from_vec(spans),
    })
}

/// Adds the row of a task, where it is the node's.
fn add_task(
    alloc: Global,
    node: u32,
    period: u64,
    task: &Task,
    start: Time,
    rows: &mut Vec<Row>,
) -> Result<(), AllocError>
    ensures { OnOk result (rows.new.items ≡ rows.old.items ++ run_rows node period (task.now, start)) }
{
    if task.node != node {
        return Ok(());
    }
    rows.push(run_row(alloc, period, task, start)?)?;
    Ok(())
}

/// Adds the rows of the node's tasks of an application, whose starts stand first.
fn add_app(
    alloc: Global,
    node: u32,
    period: u64,
    tasks: &[Task],
    starts: &[Time],
    rows: &mut Vec<Row>,
) -> Result<(), AllocError>
    ensures { OnOk result (rows.new.items ≡ rows.old.items
        ++ flat_map (run_rows node period) (zip tasks.now starts.now)) }
{
    for (task, start) in tasks.iter().zip(starts) {
        add_task(alloc, node, period, task, *start, rows)?;
    }
    Ok(())
}

/// Adds the rows of the node's tasks of all applications.
pub(crate) fn add_runs(
    alloc: Global,
    node: u32,
    apps: &[App],
    starts: &[Time],
    rows: &mut Vec<Row>,
) -> Result<(), AllocError>
    ensures { OnOk result (rows.new.items ≡ rows.old.items ++ node_rows node apps.now starts.now) }
{
    let mut left = starts;
    for app in apps {
        let tasks = app.tasks.as_slice();
        add_app(alloc, node, app.period.unsigned_abs(), tasks, left, rows)?;
        left = behind(left, tasks.len());
    }
    Ok(())
}

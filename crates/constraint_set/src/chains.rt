//! What the constraints need of a mode's task graph: which tasks are first ones, and the chains.

ghost use Rattle.std.specs.Prelude.{◌≡◌, [], ◌∷◌, ◌++◌, ◌<◌, ◌≤◌, IfOk, length, map};
ghost use Rattle.std.specs.List.{flat_map};
ghost use Rattle.sched_model.specs.Numbers.{below};
ghost use Rattle.sched_model.specs.ConstraintProblem.{of_chain, of_first};
ghost use Rattle.sched_model.specs.Links.{graph_of, sources_of};
ghost use Rattle.sched_model.specs.ModeLimits.{IsLimited};
ghost use Rattle.sched_model.specs.TaskGraph.{first};
ghost use Rattle.sched_model.specs.ValidMode.{IsValid};
ghost use Rattle.constraint_set.specs.Posed.{chains_of};

use crate::bounds::at_most_less;
use crate::frame::Frame;
use sched_model::{TaskGraph, TaskSet};
use std::alloc::{AllocError, Global};
use tick_num::Diff;

/// The tasks that reach each task, in file order.
fn all_sources(alloc: Global, frame: &Frame, graph: &TaskGraph) -> Result<Vec<TaskSet>, AllocError>
    requires graph { graph.now ≡ graph_of frame.now }

    ensures { IfOk result (λ v. v.items ≡ map (sources_of frame.now)
        (below (length frame.now.tasks))) }
{
    let mut all = Vec::new(alloc);
    for target in 0..frame.task_count() {
        all.push(graph.sources(target as usize))?;
    }
    Ok(all)
}

/// Adds the constraint of a chain, where the task at the place `end` is a last one and the first task reaches it.
fn add_chain(
    chains: &mut Vec<Diff>,
    frame: &Frame,
    graph: &TaskGraph,
    start: u32,
    end: u32,
    sources: TaskSet,
) -> Result<(), AllocError>
    requires graph { graph.now ≡ graph_of frame.now }
    requires start { start < length frame.now.tasks }
    requires end { end < length frame.now.tasks }
    requires sources { sources ≡ sources_of frame.now end }

    ensures { IfOk result (λ _. chains.new.items
        ≡ chains.old.items ++ of_chain frame.now 0 start end) }
{
    frame.kept();
    if !graph.is_last(end as usize) {
        return Ok(());
    }
    if !sources.has(start as usize) {
        return Ok(());
    }
    let deadline = frame.task(start).deadline();
    let wcet = frame.task(end).wcet();
    chains.push(at_most_less(end, start, deadline, wcet))?;
    Ok(())
}

/// Adds the constraints of the chains of a task.
fn add_chains_of(
    chains: &mut Vec<Diff>,
    frame: &Frame,
    graph: &TaskGraph,
    start: u32,
    sources: &[TaskSet],
) -> Result<(), AllocError>
    requires graph { graph.now ≡ graph_of frame.now }
    requires start { start < length frame.now.tasks }
    requires sources { sources.now ≡ map (sources_of frame.now) (below (length frame.now.tasks)) }

    ensures { IfOk result (λ _. chains.new.items ≡ chains.old.items
        ++ flat_map (of_chain frame.now 0 start) (below (length frame.now.tasks))) }
{
    for end in 0..frame.task_count() {
        add_chain(chains, frame, graph, start, end, sources[end as usize])?;
    }
    Ok(())
}

/// Adds the constraints of the chains of a first task.
fn add_first(
    chains: &mut Vec<Diff>,
    frame: &Frame,
    graph: &TaskGraph,
    start: u32,
    sources: &[TaskSet],
) -> Result<(), AllocError>
    requires graph { graph.now ≡ graph_of frame.now }
    requires start { start < length frame.now.tasks }
    requires sources { sources.now ≡ map (sources_of frame.now) (below (length frame.now.tasks)) }

    ensures { IfOk result (λ _. chains.new.items ≡ chains.old.items ++ of_first frame.now 0 start) }
{
    if frame.is_first(start) {
        add_chains_of(chains, frame, graph, start, sources)?;
        return Ok(());
    }
    Ok(())
}

/// The constraints of the chains, in which tasks go by their places.
pub(crate) fn find_chains(
    alloc: Global,
    frame: &Frame,
    graph: &TaskGraph,
) -> Result<Vec<Diff>, AllocError>
    requires graph { graph.now ≡ graph_of frame.now }
    ensures { IfOk result (λ v. v.items ≡ chains_of frame.now) }
{
    let sources = all_sources(alloc, frame, graph)?;
    let mut chains = Vec::new(alloc);
    for start in 0..frame.task_count() {
        add_first(&mut chains, frame, graph, start, sources.as_slice())?;
    }
    Ok(chains)
}

//! The rules on applications, modes and whole mode sets, in their order.

ghost use Rattle.std.specs.Prelude.{◌≡◌, ◌≤◌, [], length, pos, ◌<ℤ◌};
ghost use Rattle.std.specs.List.{flat_map};
ghost use Rattle.app_graph.specs.Checks.{Checks};
ghost use Rattle.app_graph.specs.Rules.{each_after};
ghost use Rattle.app_graph.specs.ValueRules.{app_values, graph_values, mode_values, node_values, own_values, round_values, value_rules};

use crate::checks::{few, in_range, is_within, known};
use crate::cycle_rule::check_cycle;
use crate::faults::GraphFault;
use crate::keys::Key;
use crate::message_rules::{check_inputs, check_messages};
use crate::name_rules::{check_name, check_nodes, is_app_name, is_mode_name};
use crate::names::is_among;
use crate::raw::{RawApp, RawMode, RawSet};
use crate::size_rules::check_sizes;
use crate::task_rules::check_tasks;
use std::alloc::Global;
use ttw_text::is_name;

/// An application by itself.
fn check_own(alloc: Global, earlier: &[RawApp], app: &RawApp) -> Result<(), GraphFault>
    ensures { Checks result (own_values earlier.now app.now) }
{
    check_name(alloc, &app.name, is_app_name(&app.name, earlier))?;
    in_range(is_within(1, 1_000_000_000, app.period), Key::KPeriod)?;
    in_range(
        is_within(1, 1_000_000_000_000, app.deadline),
        Key::KDeadline,
    )?;
    in_range(!app.tasks.as_slice().is_empty(), Key::KTask)
}

/// The graph of an application.
fn check_graph(alloc: Global, app: &RawApp) -> Result<(), GraphFault>
    requires { length app.now.tasks ≤ 128 }
    ensures { Checks result (graph_values app.now) }
{
    check_inputs(app)?;
    check_cycle(alloc, app)
}

/// An application of a mode after the `earlier` ones.
fn check_app(
    alloc: Global,
    set: &RawSet,
    earlier: &[RawApp],
    app: &RawApp,
) -> Result<(), GraphFault>
    requires { length (flat_map (λ a. a.tasks) earlier.now) ≤ 128 }
    ensures { Checks result (app_values set.now earlier.now app.now) }
{
    check_own(alloc, earlier, app)?;
    check_tasks(alloc, set, app, earlier)?;
    check_messages(alloc, app, earlier)?;
    check_graph(alloc, app)
}

/// The applications of a mode.
fn check_apps(alloc: Global, set: &RawSet, mode: &RawMode) -> Result<(), GraphFault>
    ensures { Checks result (each_after (app_values set.now) [] mode.now.apps) }
{
    let apps = mode.apps.as_slice();
    for (i, app) in apps.iter().enumerate() {
        check_app(alloc, set, &apps[..i], app)?;
    }
    Ok(())
}

/// A mode after the `earlier` ones.
fn check_mode(
    alloc: Global,
    set: &RawSet,
    earlier: &[RawMode],
    mode: &RawMode,
) -> Result<(), GraphFault>
    requires { pos 0 <ℤ set.now.round }
    ensures { Checks result (mode_values set.now earlier.now mode.now) }
{
    check_name(alloc, &mode.name, is_mode_name(&mode.name, earlier))?;
    in_range(!mode.apps.as_slice().is_empty(), Key::KApp)?;
    check_apps(alloc, set, mode)?;
    check_sizes(alloc, set, mode)
}

/// The modes.
fn check_modes(alloc: Global, set: &RawSet) -> Result<(), GraphFault>
    requires { pos 0 <ℤ set.now.round }
    ensures { Checks result (each_after (mode_values set.now) [] set.now.modes) }
{
    let modes = set.modes.as_slice();
    for (i, mode) in modes.iter().enumerate() {
        check_mode(alloc, set, &modes[..i], mode)?;
    }
    Ok(())
}

/// The rounds.
fn check_rounds(set: &RawSet) -> Result<(), GraphFault>
    ensures { Checks result (round_values set.now) }
{
    in_range(is_within(1, 32, set.slots), Key::KSlots)?;
    in_range(is_within(1, 1_000_000_000, set.round), Key::KRound)?;
    in_range(is_within(set.round, 1_000_000_000, set.gap), Key::KGap)
}

/// The nodes and the host.
fn check_network(alloc: Global, set: &RawSet) -> Result<(), GraphFault>
    ensures { Checks result (node_values set.now) }
{
    let nodes = set.nodes.as_slice();
    in_range(!nodes.is_empty(), Key::KNodes)?;
    few(nodes.len() <= 64, Key::KNodes)?;
    check_nodes(alloc, nodes)?;
    in_range(is_name(set.host.as_bytes()), Key::KHost)?;
    known(alloc, is_among(&set.host, nodes), &set.host)
}

/// All rules on values and graphs.
pub(crate) fn check_set(alloc: Global, set: &RawSet) -> Result<(), GraphFault>
    ensures { Checks result (value_rules set.now) }
{
    let modes = set.modes.as_slice();
    check_rounds(set)?;
    check_network(alloc, set)?;
    in_range(!modes.is_empty(), Key::KMode)?;
    few(modes.len() <= 8, Key::KMode)?;
    check_modes(alloc, set)
}

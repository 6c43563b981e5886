//! The charts of modes, and their sections.

ghost use Rattle.std.specs.Prelude.{◌≡◌, ◌++◌, ◌<◌, [], ◌∷◌, IfOk, OnOk, length};
ghost use Rattle.std.specs.List.{flat_map, enumerate_from};
ghost use Rattle.app_graph.specs.Validation.{KeepsRules};
ghost use Rattle.sched_model.specs.PlainMode.{hyper, mode_at, plain_at};
ghost use Rattle.plan_picture.specs.Picture as picture;
ghost use Rattle.plan_picture.specs.Picture.{lane, mode_rows, node_lane, rounds_told};

use crate::node_lanes::add_runs;
use crate::rounds_lane::{Rounds, rounds_row};
use crate::texts::text;
use crate::windows_lane::add_windows;
use app_graph::{App, ListOf, ModeSet, Name};
use sched_model::{Schedule, apps_of, hyper, mode_name};
use std::alloc::{AllocError, Global};
use tick_num::Time;
use time_chart::{Chart, Row, Section};
use ttw_text::Out;

/// Adds rows as a lane of this name, which stands at the first one.
fn add_lane(
    alloc: Global,
    name: &[u8],
    rows: Vec<Row>,
    all: &mut Vec<Row>,
) -> Result<(), AllocError>
    ensures { OnOk result (all.new.items ≡ all.old.items ++ lane name.now rows.items) }
{
    let mut lane = text(alloc, name)?;
    for row in rows {
        all.push(Row {
            lane,
            name: row.name,
            spans: row.spans,
        })?;
        lane = Out::make(alloc);
    }
    Ok(())
}

/// Adds the lane of the messages.
fn add_window_lane(
    alloc: Global,
    apps: &[App],
    windows: &[(Time, Time)],
    all: &mut Vec<Row>,
) -> Result<(), AllocError>
    ensures { OnOk result (all.new.items ≡ all.old.items ++ picture.window_lane apps.now windows.now) }
{
    let mut rows = Vec::new(alloc);
    add_windows(alloc, apps, windows, &mut rows)?;
    add_lane(alloc, b"windows", rows, all)
}

/// Adds the lane of the node of this number.
fn add_node_lane(
    alloc: Global,
    node: u32,
    name: &[u8],
    apps: &[App],
    starts: &[Time],
    all: &mut Vec<Row>,
) -> Result<(), AllocError>
    ensures { OnOk result (all.new.items ≡ all.old.items
        ++ node_lane apps.now starts.now (node, name.now)) }
{
    let mut rows = Vec::new(alloc);
    add_runs(alloc, node, apps, starts, &mut rows)?;
    add_lane(alloc, name, rows, all)
}

/// Adds the lanes of all nodes.
fn add_node_lanes(
    alloc: Global,
    nodes: &[Name],
    apps: &[App],
    starts: &[Time],
    all: &mut Vec<Row>,
) -> Result<(), AllocError>
    requires { length nodes.now < 65536 }
    ensures { OnOk result (all.new.items ≡ all.old.items
        ++ flat_map (node_lane apps.now starts.now) (enumerate_from 0 nodes.now)) }
{
    for (at, node) in nodes.iter().enumerate() {
        add_node_lane(alloc, at as u32, node.as_bytes(), apps, starts, all)?;
    }
    Ok(())
}

/// The rounds of the set in this hyperperiod.
fn rounds_of(set: &ModeSet, hyper: u64) -> Rounds
    ensures { result ≡ picture.rounds_of set.now hyper }
{
    let length = set.round.unsigned_abs();
    Rounds {
        hyper,
        length,
        part: length / (u64::from(set.slots) + 1),
    }
}

/// The rows of a mode with these applications.
fn rows_of(
    alloc: Global,
    set: &ModeSet,
    hyper: u64,
    apps: &[App],
    s: &Schedule,
) -> Result<Vec<Row>, AllocError>
    requires { length set.now.nodes < 65536 }
    ensures { IfOk result (λ rows. rows.items ≡ mode_rows set.now hyper apps.now s.now) }
{
    let mut rows = Vec::new(alloc);
    rows.push(rounds_row(alloc, rounds_of(set, hyper), apps, s)?)?;
    add_window_lane(alloc, apps, s.messages.as_slice(), &mut rows)?;
    add_node_lanes(
        alloc,
        set.nodes.as_slice(),
        apps,
        s.tasks.as_slice(),
        &mut rows,
    )?;
    Ok(rows)
}

/// The chart of the mode's schedule, where it has one.
fn chart_of(
    alloc: Global,
    set: &ModeSet,
    mode: u32,
    plan: &Option<Schedule>,
) -> Result<Option<Chart>, AllocError>
    requires rules { KeepsRules set.now }
    requires mode { mode < length set.now.modes }
    ensures { IfOk result (λ chart. chart ≡ picture.mode_chart set.now mode plan.now) }
{
    match plan {
        None => Ok(None),
        Some(s) => {
            let hyper = hyper(set, mode).unsigned_abs();
            let rows = rows_of(alloc, set, hyper, apps_of(set, mode), s)?;
            Ok(Some(Chart {
                hyper,
                rows: ListOf::from_vec(rows),
            }))
        }
    }
}

/// What is said of a mode beside its hyperperiod.
fn rounds_said(plan: &Option<Schedule>) -> &'static [u8]
    ensures { result.now ≡ rounds_told plan.now }
{
    match plan {
        None => b" ticks, no schedule",
        Some(_) => b" ticks",
    }
}

/// The heading of the mode.
fn heading_of(
    alloc: Global,
    set: &ModeSet,
    mode: u32,
    plan: &Option<Schedule>,
) -> Result<Out, AllocError>
    requires rules { KeepsRules set.now }
    requires mode { mode < length set.now.modes }
    ensures { IfOk result (λ out. out ≡ picture.heading set.now mode plan.now) }
{
    let mut out = text(alloc, b"mode ")?;
    out.put(mode_name(set, mode))?;
    out.put(b": hyperperiod ")?;
    out.number(hyper(set, mode).unsigned_abs())?;
    out.put(rounds_said(plan))?;
    Ok(out)
}

/// The section of the mode.
fn section_of(
    alloc: Global,
    set: &ModeSet,
    mode: u32,
    plan: &Option<Schedule>,
) -> Result<Section, AllocError>
    requires rules { KeepsRules set.now }
    requires mode { mode < length set.now.modes }
    ensures { IfOk result (λ section. section ≡ picture.mode_section set.now mode plan.now) }
{
    Ok(Section {
        heading: heading_of(alloc, set, mode, plan)?,
        chart: chart_of(alloc, set, mode, plan)?,
    })
}

/// The sections of all modes, each with its schedule or none.
pub(crate) fn sections_of(
    alloc: Global,
    set: &ModeSet,
    plans: &[Option<Schedule>],
) -> Result<Vec<Section>, AllocError>
    requires rules { KeepsRules set.now }
    requires each { length plans.now ≡ length set.now.modes }
    ensures { IfOk result (λ sections. sections.items ≡ picture.sections set.now plans.now) }
{
    let mut sections = Vec::new(alloc);
    for mode in 0..plans.len() as u32 {
        sections.push(section_of(alloc, set, mode, &plans[mode as usize])?)?;
    }
    Ok(sections)
}

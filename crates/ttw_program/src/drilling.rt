//! The command `drill`.

ghost use Rattle.std.specs.Prelude.{◌≡◌, ◌≤◌, ◌<◌, ◌^◌, IfOk, map, sum_by, unsigned_abs};
ghost use Rattle.std.specs.List.{AllZip};
ghost use Rattle.app_graph.specs.Validation.{KeepsRules};
ghost use Rattle.proof_tree.specs.Accepting.{IsRight, doc_modes};
ghost use Rattle.runtime_model.specs.Plans.{AreSchedules};
ghost use Rattle.world_core.specs.StandsFor.{HaveBodies};
ghost use Rattle.drill.specs.Generated as generated;
ghost use Rattle.ttw_program.specs.Drills.{CountsRun, DrillDue, IsDrilled, OfParts, all_offsets, all_rounds};
ghost use Rattle.file_answers.specs.PlanFiles.{OfSchedules};
ghost use Rattle.ttw_program.specs.Plans.{VisitsAll};

use crate::bodies::no_body;
use crate::planning::{Plans, exceeded, plan_modes};
use app_graph::{GraphFault, ListOf, ModeSet, validate};
use drill::{Summary, drill_law, generate, script};
use file_answers::{Answer, Schedules, Status, none_line, schedules_of};
use proof_tree::ModePart;
use replayer::laws::scripts_spell_once;
use replayer::{Counts, ReplayEnd, replay};
use sched_model::Schedule;
use std::alloc::{AllocError, Global};
use task_body::TaskBody;
use tick_num::Time;
use ttw_io::SureSink;
use ttw_text::Out;
use world_core::{World, missing_body};

/// The most prefixes that the search of a mode may visit.
const BUDGET: u64 = 100_000;

/// How many modes the generated set has.
const MODES: u64 = 8;

/// How many tasks.
const TASKS: u64 = 512;

/// How many messages.
const MESSAGES: u64 = 256;

/// The generated set of the seed.
fn generated_set(alloc: Global, seed: u64) -> Result<ModeSet, AllocError>
    requires { seed ≤ 1000000 }
    ensures set { IfOk result (λ set. set ≡ generated.drill_set seed) }
    ensures rules { IfOk result KeepsRules }
{
    drill_law();
    let raw = generate(alloc, seed)?;
    match validate(alloc, &raw) {
        Ok(set) => Ok(set),
        Err(GraphFault::Memory) => Err(AllocError),
        Err(_) => unreachable!(),
    }
}

/// The schedules of the parts, in their order.
fn plans_in(alloc: Global, parts: Vec<ModePart>) -> Result<ListOf<Option<Schedule>>, AllocError>
    ensures { IfOk result (λ plans. plans ≡ map (λ part. part.schedule) parts.items) }
{
    let mut plans = Vec::new(alloc);
    for part in parts {
        plans.push(part.schedule)?;
    }
    Ok(ListOf::from_vec(plans))
}

/// The sum of the rounds of all schedules.
fn rounds_of(schedules: &[Schedule]) -> u64
    requires { all_rounds schedules.now < 2 ^ 64 }
    ensures { result ≡ all_rounds schedules.now }
{
    schedules
        .iter()
        .map(|schedule| schedule.starts.as_slice().len() as u64)
        .sum()
}

/// The sum of these offsets.
fn sum_of(offsets: &[Time]) -> u64
    requires { sum_by unsigned_abs offsets.now < 2 ^ 64 }
    ensures { result ≡ sum_by unsigned_abs offsets.now }
{
    offsets.iter().map(|offset| offset.unsigned_abs()).sum()
}

/// The sum of the offsets of all schedules' tasks.
fn offsets_of(schedules: &[Schedule]) -> u64
    requires { all_offsets schedules.now < 2 ^ 64 }
    ensures { result ≡ all_offsets schedules.now }
{
    let mut sum = 0;
    for schedule in schedules {
        sum += sum_of(schedule.tasks.as_slice());
    }
    sum
}

/// The counts of a replay of the drill's script without loss. Its trace is dropped.
fn run_script(
    alloc: Global,
    seed: u64,
    set: &ModeSet,
    schedules: &[Schedule],
    bodies: &mut Vec<Box<dyn TaskBody>>,
) -> Result<Counts, AllocError>
    requires set { set.now ≡ generated.drill_set seed }
    requires rules { KeepsRules set.now }
    requires schedules { AreSchedules set.now schedules.now }
    requires bodies { HaveBodies set.now (map seen bodies.old.items) }
    ensures { IfOk result (CountsRun set.now schedules.now (map seen bodies.old.items)) }
{
    scripts_spell_once();
    let lines = script(alloc)?;
    let mut world = World::make(alloc, set, schedules, bodies)?;
    let mut dropped = SureSink::make();
    match replay(
        alloc,
        &mut world,
        set,
        lines.as_slice(),
        bodies,
        &mut dropped,
    ) {
        Ok(counts) => Ok(counts),
        Err(ReplayEnd::Memory) => Err(AllocError),
        Err(ReplayEnd::WriteFault) => unreachable!(),
    }
}

/// The answer for the schedules of all modes, whose searches visited so many prefixes.
fn drill_schedules(
    alloc: Global,
    seed: u64,
    set: &ModeSet,
    schedules: &[Schedule],
    visited: u64,
    bodies: &mut Vec<Box<dyn TaskBody>>,
) -> Result<Answer, AllocError>
    requires set { set.now ≡ generated.drill_set seed }
    requires rules { KeepsRules set.now }
    requires schedules { AreSchedules set.now schedules.now }
    requires visited { VisitsAll set.now visited }
    requires bodies { HaveBodies set.now (map seen bodies.old.items) }
    ensures { IfOk result (λ a.
        IsDrilled seed set.now (map seen bodies.old.items) schedules.now a.status a.text) }
{
    let counts = run_script(alloc, seed, set, schedules, bodies)?;
    let summary = Summary {
        seed,
        modes: MODES,
        tasks: TASKS,
        messages: MESSAGES,
        rounds: rounds_of(schedules),
        visited,
        offsets: offsets_of(schedules),
        sent: counts.sent,
        started: counts.started,
        values: counts.values,
    };
    let mut text = Out::make(alloc);
    summary.write(&mut text)?;
    Ok(Answer {
        status: Status::Done,
        text,
    })
}

/// The answer for the plans of the modes, whose searches visited so many prefixes.
fn drill_plans(
    alloc: Global,
    seed: u64,
    set: &ModeSet,
    plans: ListOf<Option<Schedule>>,
    visited: u64,
    bodies: &mut Vec<Box<dyn TaskBody>>,
) -> Result<Answer, AllocError>
    requires set { set.now ≡ generated.drill_set seed }
    requires rules { KeepsRules set.now }
    requires right { AllZip IsRight (doc_modes set.now) plans }
    requires visited { VisitsAll set.now visited }
    requires bodies { HaveBodies set.now (map seen bodies.old.items) }
    ensures { IfOk result (λ a.
        OfSchedules set.now (IsDrilled seed set.now (map seen bodies.old.items)) plans a.status a.text) }
{
    match schedules_of(alloc, plans)? {
        Schedules::All(schedules) => {
            drill_schedules(alloc, seed, set, schedules.as_slice(), visited, bodies)
        }
        Schedules::Without(mode) => Ok(Answer {
            status: Status::Plan,
            text: none_line(alloc, set, mode as u32)?,
        }),
    }
}

/// The answer for the generated set, of which each task has a body.
fn drill_set(
    alloc: Global,
    seed: u64,
    set: &ModeSet,
    bodies: &mut Vec<Box<dyn TaskBody>>,
) -> Result<Answer, AllocError>
    requires set { set.now ≡ generated.drill_set seed }
    requires rules { KeepsRules set.now }
    requires bodies { HaveBodies set.now (map seen bodies.old.items) }
    ensures { IfOk result (λ a.
        OfParts set.now (IsDrilled seed set.now (map seen bodies.old.items)) a.status a.text) }
{
    match plan_modes(alloc, set, BUDGET)? {
        Plans::Made { parts, visited } => {
            let plans = plans_in(alloc, parts)?;
            drill_plans(alloc, seed, set, plans, visited, bodies)
        }
        Plans::Spent { mode, rounds } => exceeded(alloc, set, BUDGET, mode, rounds),
    }
}

/// The answer to `drill SEED`.
pub(crate) fn answer_drill(
    alloc: Global,
    seed: u64,
    bodies: &mut Vec<Box<dyn TaskBody>>,
) -> Result<Answer, AllocError>
    requires { seed ≤ 1000000 }
    ensures { IfOk result (λ a. DrillDue seed (map seen bodies.old.items) a.status a.text) }
{
    let set = generated_set(alloc, seed)?;
    match missing_body(&set, bodies) {
        Some(task) => no_body(alloc, &set, task),
        None => drill_set(alloc, seed, &set, bodies),
    }
}

//! The command `plan`.

ghost use Rattle.std.specs.Prelude.{◌≡◌, ◌≤◌, ◌<◌, length, IfOk, IsErrOf, is_some};
ghost use Rattle.std.specs.List.{list_all};
ghost use Rattle.app_graph.specs.Validation.{KeepsRules};
ghost use Rattle.sched_model.specs.PlainMode.{mode_at};
ghost use Rattle.ttw_io.specs.Outside.{Rose, OfFile};
ghost use Rattle.ttw_program.specs.FaultLines as lines;
ghost use Rattle.ttw_program.specs.Plans.{IsPlans, PlansAll, SpendsFirst, plan_status};
ghost use Rattle.ttw_program.specs.Due.{PlanDue};
ghost use Rattle.file_answers.specs.Due.{OfSet};

use crate::fault_lines::budget_line;
use app_graph::ModeSet;
use file_answers::{Answer, End, ModeFile, Status, read_mode_file};
use planner::{Planned, plan_mode};
use proof_tree::laws::own_documents_have_room;
use proof_tree::{ModePart, write_plan};
use std::alloc::{AllocError, Global};
use ttw_io::Files;
use ttw_text::Out;

/// What is planned for the modes of a set.
#[derive(Drop)]
pub(crate) enum Plans {
    /// A part for each mode, and how many prefixes were visited in all.
    Made { parts: Vec<ModePart>, visited: u64 },
    /// The first mode whose search exceeds the budget, and the number of rounds at which it does.
    Spent { mode: u32, rounds: u64 },
}

/// The number of modes.
fn count_of(set: &ModeSet) -> u32
    requires { KeepsRules set.now }
    ensures { result ≡ length set.now.modes }
{
    set.modes.as_slice().len() as u32
}

/// Plans the modes in file order.
pub(crate) fn plan_modes(alloc: Global, set: &ModeSet, budget: u64) -> Result<Plans, AllocError>
    requires rules { KeepsRules set.now }
    requires budget { budget ≤ 100_000 }
    ensures { IfOk result (IsPlans set.now budget) }
{
    let mut parts = Vec::new(alloc);
    let mut visited = 0;
    for mode in 0..count_of(set) {
        match plan_mode(alloc, set, mode, budget)? {
            Planned::Made(part, cost) => {
                parts.push(part)?;
                visited += cost;
            }
            Planned::Spent { rounds } => return Ok(Plans::Spent { mode, rounds }),
        }
    }
    Ok(Plans::Made { parts, visited })
}

/// Whether every mode has a schedule.
fn are_planned(parts: &[ModePart]) -> bool
    ensures { result ≡ list_all (λ part. is_some part.schedule) parts.now }
{
    parts.iter().all(|part| part.schedule.is_some())
}

/// The status of a plan.
fn status_of(parts: &[ModePart]) -> Status
    ensures { result ≡ plan_status parts.now }
{
    if are_planned(parts) {
        Status::Done
    } else {
        Status::NoSchedule
    }
}

/// The answer with the document of these parts.
fn document(
    alloc: Global,
    set: &ModeSet,
    budget: u64,
    parts: &[ModePart],
) -> Result<Answer, AllocError>
    requires rules { KeepsRules set.now }
    requires budget { budget ≤ 100_000 }
    requires parts { PlansAll set.now budget parts.now }
    ensures { IfOk result (λ a. PlanDue budget set.now a.status a.text) }
{
    own_documents_have_room();
    let mut text = Out::make(alloc);
    write_plan(set, parts, &mut text)?;
    Ok(Answer {
        status: status_of(parts),
        text,
    })
}

/// The answer that the mode's search exceeds the budget at so many rounds.
pub(crate) fn exceeded(
    alloc: Global,
    set: &ModeSet,
    budget: u64,
    mode: u32,
    rounds: u64,
) -> Result<Answer, AllocError>
    requires { SpendsFirst set.now budget mode rounds }
    ensures due { IfOk result (λ a. PlanDue budget set.now a.status a.text) }
    ensures status { IfOk result (λ a. a.status ≡ Status.Budget) }
    ensures text { IfOk result (λ a. a.text ≡ lines.budget_line (mode_at set.now mode).name rounds) }
{
    let mode = &set.modes.as_slice()[mode as usize];
    Ok(Answer {
        status: Status::Budget,
        text: budget_line(alloc, mode.name.as_bytes(), rounds)?,
    })
}

/// The answer for the set that a mode file says.
fn plan_set(alloc: Global, set: &ModeSet, budget: u64) -> Result<Answer, AllocError>
    requires rules { KeepsRules set.now }
    requires budget { budget ≤ 100_000 }
    ensures { IfOk result (λ a. PlanDue budget set.now a.status a.text) }
{
    match plan_modes(alloc, set, budget)? {
        Plans::Made { parts, .. } => document(alloc, set, budget, parts.as_slice()),
        Plans::Spent { mode, rounds } => exceeded(alloc, set, budget, mode, rounds),
    }
}

/// The answer to `plan FILE BUDGET`.
pub(crate) fn answer_plan<F: Files>(
    alloc: Global,
    file: &str,
    budget: u64,
    files: &mut F,
) -> Result<Answer, End>
    requires { budget ≤ 100_000 }
    ensures due { IfOk result (λ a. OfFile (F.contents files.old file.now) (OfSet (PlanDue budget)) a.status a.text) }
    ensures read { IsErrOf result End.Read → Rose (F.faults files.old) (F.faults files.new) }
    ensures counted { F.faults files.old ≤ F.faults files.new }
{
    match read_mode_file(alloc, file, files)? {
        ModeFile::Set(set) => Ok(plan_set(alloc, &set, budget)?),
        ModeFile::Refused(answer) => Ok(answer),
    }
}

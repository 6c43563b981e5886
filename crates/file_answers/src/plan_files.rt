//! The plan document that a command names.

ghost use Rattle.std.specs.Prelude.{◌≡◌, ◌≤◌, IfOk, IsErrOf};
ghost use Rattle.app_graph.specs.Validation.{KeepsRules};
ghost use Rattle.ttw_io.specs.Outside.{Rose};
ghost use Rattle.file_answers.specs.PlanFiles.{HasSchedules, PlanSaidOf};

use crate::answers::{Answer, End};
use crate::fault_lines::refusal_line;
use crate::status::Status;
use app_graph::{ListOf, ModeSet};
use cert_checker::{Accepted, CheckEnd, Refused, check_from};
use sched_model::Schedule;
use std::alloc::{AllocError, Global};
use ttw_io::Files;

/// What a plan document says.
#[derive(Drop)]
pub enum PlanFile {
    /// A schedule, or that there is none, for each mode.
    Accepted(Accepted),
    /// Nothing: the answer that refuses it.
    Refused(Answer),
}

/// The schedules of an accepted plan.
#[derive(Drop)]
pub enum Schedules {
    /// One for each mode.
    All(Vec<Schedule>),
    /// The mode of this number is the first that has none.
    Without(usize),
}

/// Reads the plan of this name for the set, line by line.
pub fn read_plan_file<F: Files>(
    alloc: Global,
    set: &ModeSet,
    plan: &str,
    files: &mut F,
) -> Result<PlanFile, End>
    requires { KeepsRules set.now }
    ensures says { IfOk result (PlanSaidOf set.now (F.contents files.old plan.now)) }
    ensures read { IsErrOf result End.Read → Rose (F.faults files.old) (F.faults files.new) }
    ensures kept { F.contents files.new ≡ F.contents files.old }
    ensures counted { F.faults files.old ≤ F.faults files.new }
{
    match check_from(alloc, set, files, plan) {
        Ok(accepted) => Ok(PlanFile::Accepted(accepted)),
        Err(CheckEnd::ReadFault) => Err(End::Read),
        Err(CheckEnd::Refused(Refused::Memory)) => Err(End::Memory),
        Err(CheckEnd::Refused(refused)) => Ok(PlanFile::Refused(Answer {
            status: Status::Plan,
            text: refusal_line(alloc, set, refused)?,
        })),
    }
}

/// The schedules of all modes, or the first mode without one.
pub fn schedules_of(alloc: Global, plans: ListOf<Option<Schedule>>) -> Result<Schedules, AllocError>
    ensures { IfOk result (HasSchedules plans) }
{
    let mut schedules = Vec::new(alloc);
    for plan in plans.into_vec() {
        match plan {
            Some(schedule) => schedules.push(schedule)?,
            None => return Ok(Schedules::Without(schedules.len())),
        }
    }
    Ok(Schedules::All(schedules))
}

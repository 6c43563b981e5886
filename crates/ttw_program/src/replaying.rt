//! The command `replay`.

ghost use Rattle.std.specs.Prelude.{◌≡◌, ◌≤◌, IfOk, IsErrOf, map};
ghost use Rattle.std.specs.List.{AllZip};
ghost use Rattle.app_graph.specs.Validation.{KeepsRules};
ghost use Rattle.runtime_model.specs.Plans.{AreSchedules};
ghost use Rattle.proof_tree.specs.Accepting.{IsRight, doc_modes};
ghost use Rattle.ttw_io.specs.Outside.{Rose, OfFile};
ghost use Rattle.world_core.specs.StandsFor.{HaveBodies};
ghost use Rattle.file_answers.specs.Due.{OfSet};
ghost use Rattle.file_answers.specs.PlanFiles.{OfPlan, OfSchedules};
ghost use Rattle.ttw_program.specs.Replays.{IsReply, ReplayDue, TraceDue};

use crate::bodies::no_body;
use crate::script_files::{ScriptFile, read_script_file};
use app_graph::{ListOf, ModeSet};
use file_answers::{
    Answer, End, ModeFile, PlanFile, Schedules, Status, none_line, read_mode_file, read_plan_file,
    schedules_of,
};
use replay_script::Line;
use sched_model::Schedule;
use std::alloc::Global;
use task_body::TaskBody;
use ttw_io::Files;
use world_core::{World, missing_body};

/// A world before its first event, and the script of what is to happen to it.
#[derive(Drop)]
pub(crate) struct Replay {
    pub(crate) set: ModeSet,
    pub(crate) world: World,
    pub(crate) script: ListOf<Line>,
}

/// What is written in answer to a command.
#[derive(Drop)]
pub(crate) enum Reply {
    /// A text.
    Text(Answer),
    /// The trace of a replay.
    Trace(Replay),
}

/// The reply to the script of this name, with a schedule for each mode.
fn reply_script<F: Files>(
    alloc: Global,
    set: ModeSet,
    schedules: &[Schedule],
    script: &str,
    files: &mut F,
    bodies: &Vec<Box<dyn TaskBody>>,
) -> Result<Reply, End>
    requires rules { KeepsRules set }
    requires schedules { AreSchedules set schedules.now }
    requires bodies { HaveBodies set (map seen bodies.now.items) }

    ensures due { IfOk result (IsReply (map seen bodies.now.items)
        (TraceDue set (map seen bodies.now.items) (F.contents files.old script.now) schedules.now)) }
    ensures read { IsErrOf result End.Read → Rose (F.faults files.old) (F.faults files.new) }

    ensures counted { F.faults files.old ≤ F.faults files.new }
{
    match read_script_file(alloc, &set, script, files)? {
        ScriptFile::Lines(lines) => {
            let world = World::make(alloc, &set, schedules, bodies)?;
            Ok(Reply::Trace(Replay {
                set,
                world,
                script: lines,
            }))
        }
        ScriptFile::Refused(answer) => Ok(Reply::Text(answer)),
    }
}

/// The reply to the script of this name, with the schedules of an accepted plan.
fn reply_accepted<F: Files>(
    alloc: Global,
    set: ModeSet,
    plans: ListOf<Option<Schedule>>,
    script: &str,
    files: &mut F,
    bodies: &Vec<Box<dyn TaskBody>>,
) -> Result<Reply, End>
    requires rules { KeepsRules set }
    requires right { AllZip IsRight (doc_modes set) plans }
    requires bodies { HaveBodies set (map seen bodies.now.items) }

    ensures due { IfOk result (IsReply (map seen bodies.now.items)
        (OfSchedules set
        (TraceDue set (map seen bodies.now.items) (F.contents files.old script.now)) plans)) }
    ensures read { IsErrOf result End.Read → Rose (F.faults files.old) (F.faults files.new) }

    ensures counted { F.faults files.old ≤ F.faults files.new }
{
    match schedules_of(alloc, plans)? {
        Schedules::All(schedules) => {
            reply_script(alloc, set, schedules.as_slice(), script, files, bodies)
        }
        Schedules::Without(mode) => Ok(Reply::Text(Answer {
            status: Status::Plan,
            text: none_line(alloc, &set, mode as u32)?,
        })),
    }
}

/// The reply to the plan of this name, where each task has a body.
fn reply_plan<F: Files>(
    alloc: Global,
    set: ModeSet,
    plan: &str,
    script: &str,
    files: &mut F,
    bodies: &Vec<Box<dyn TaskBody>>,
) -> Result<Reply, End>
    requires rules { KeepsRules set }
    requires bodies { HaveBodies set (map seen bodies.now.items) }

    ensures due { IfOk result (IsReply (map seen bodies.now.items)
        (OfFile (F.contents files.old plan.now) (OfPlan set (OfSchedules set
        (TraceDue set (map seen bodies.now.items) (F.contents files.old script.now)))))) }
    ensures read { IsErrOf result End.Read → Rose (F.faults files.old) (F.faults files.new) }

    ensures counted { F.faults files.old ≤ F.faults files.new }
{
    match read_plan_file(alloc, &set, plan, files)? {
        PlanFile::Accepted(accepted) => {
            reply_accepted(alloc, set, accepted.modes, script, files, bodies)
        }
        PlanFile::Refused(answer) => Ok(Reply::Text(answer)),
    }
}

/// The reply for the set that a mode file says.
fn reply_set<F: Files>(
    alloc: Global,
    set: ModeSet,
    plan: &str,
    script: &str,
    files: &mut F,
    bodies: &Vec<Box<dyn TaskBody>>,
) -> Result<Reply, End>
    requires { KeepsRules set }

    ensures due { IfOk result (IsReply (map seen bodies.now.items)
        (ReplayDue (F.contents files.old plan.now) (F.contents files.old script.now)
        (map seen bodies.now.items) set)) }
    ensures read { IsErrOf result End.Read → Rose (F.faults files.old) (F.faults files.new) }

    ensures counted { F.faults files.old ≤ F.faults files.new }
{
    match missing_body(&set, bodies) {
        Some(task) => Ok(Reply::Text(no_body(alloc, &set, task)?)),
        None => reply_plan(alloc, set, plan, script, files, bodies),
    }
}

/// The reply to `replay FILE PLAN SCRIPT`.
pub(crate) fn reply_replay<F: Files>(
    alloc: Global,
    file: &str,
    plan: &str,
    script: &str,
    files: &mut F,
    bodies: &Vec<Box<dyn TaskBody>>,
) -> Result<Reply, End>
    ensures due { IfOk result (IsReply (map seen bodies.now.items)
        (OfFile (F.contents files.old file.now) (OfSet
        (ReplayDue (F.contents files.old plan.now) (F.contents files.old script.now)
        (map seen bodies.now.items))))) }
    ensures read { IsErrOf result End.Read → Rose (F.faults files.old) (F.faults files.new) }

    ensures counted { F.faults files.old ≤ F.faults files.new }
{
    match read_mode_file(alloc, file, files)? {
        ModeFile::Set(set) => reply_set(alloc, set, plan, script, files, bodies),
        ModeFile::Refused(answer) => Ok(Reply::Text(answer)),
    }
}

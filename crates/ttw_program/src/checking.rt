//! The command `check`.

ghost use Rattle.std.specs.Prelude.{◌≡◌, ◌≤◌, ◌++◌, length, IfOk, IsErrOf, OnOk};
ghost use Rattle.std.specs.List.{AllZip, flat_map, zip};
ghost use Rattle.app_graph.specs.Validation.{KeepsRules};
ghost use Rattle.proof_tree.specs.Accepting.{doc_modes, Accepts};
ghost use Rattle.proof_tree.specs.Fewest.{IsBest};
ghost use Rattle.ttw_io.specs.Outside.{Rose, OfFile};
ghost use Rattle.ttw_program.specs.Checks.{CheckDue, accepted_text, mode_line, rounds_said};
ghost use Rattle.file_answers.specs.Due.{OfSet};

use app_graph::{Mode, ModeSet};
use cert_checker::Accepted;
use file_answers::{Answer, End, ModeFile, PlanFile, Status, read_mode_file, read_plan_file};
use sched_model::Schedule;
use std::alloc::{AllocError, Global};
use ttw_io::Files;
use ttw_text::Out;

/// Adds the number of rounds of a schedule, or that there is none.
fn write_rounds(plan: &Option<Schedule>, out: &mut Out) -> Result<(), AllocError>
    ensures { OnOk result (out.new ≡ out.old ++ rounds_said plan.now) }
{
    match plan {
        None => out.put(b" none"),
        Some(schedule) => {
            out.put(b" rounds ")?;
            out.number(schedule.starts.as_slice().len() as u64)
        }
    }
}

/// Adds the line of a mode.
fn write_mode_line(mode: &Mode, plan: &Option<Schedule>, out: &mut Out) -> Result<(), AllocError>
    ensures { OnOk result (out.new ≡ out.old ++ mode_line (mode.now, plan.now)) }
{
    out.put(b"mode ")?;
    out.put(mode.name.as_bytes())?;
    write_rounds(plan, out)?;
    out.line_end()
}

/// Adds the lines of all modes.
fn write_mode_lines(
    modes: &[Mode],
    plans: &[Option<Schedule>],
    out: &mut Out,
) -> Result<(), AllocError>
    ensures { OnOk result (out.new ≡ out.old ++ flat_map mode_line (zip modes.now plans.now)) }
{
    for (mode, plan) in modes.iter().zip(plans) {
        write_mode_line(mode, plan, out)?;
    }
    Ok(())
}

/// The answer to an accepted plan.
fn accepted_answer(alloc: Global, set: &ModeSet, accepted: &Accepted) -> Result<Answer, AllocError>
    ensures status { IfOk result (λ a. a.status ≡ Status.Done) }
    ensures text { IfOk result (λ a. a.text ≡ accepted_text set.now accepted.now.modes) }
{
    let mut text = Out::make(alloc);
    text.put(b"accepted\n")?;
    write_mode_lines(set.modes.as_slice(), accepted.modes.as_slice(), &mut text)?;
    Ok(Answer {
        status: Status::Done,
        text,
    })
}

/// The answer to the plan of this name for the set.
fn check_plan<F: Files>(
    alloc: Global,
    set: &ModeSet,
    plan: &str,
    files: &mut F,
) -> Result<Answer, End>
    requires { KeepsRules set.now }
    ensures due { IfOk result (λ a. OfFile (F.contents files.old plan.now) (CheckDue set.now) a.status a.text) }
    ensures read { IsErrOf result End.Read → Rose (F.faults files.old) (F.faults files.new) }
    ensures counted { F.faults files.old ≤ F.faults files.new }
{
    match read_plan_file(alloc, set, plan, files)? {
        PlanFile::Accepted(accepted) => Ok(accepted_answer(alloc, set, &accepted)?),
        PlanFile::Refused(answer) => Ok(answer),
    }
}

/// The answer to `check FILE PLAN`.
pub(crate) fn answer_check<F: Files>(
    alloc: Global,
    file: &str,
    plan: &str,
    files: &mut F,
) -> Result<Answer, End>
    ensures due { IfOk result (λ a. OfFile (F.contents files.old file.now) (OfSet (λ set. OfFile (F.contents files.old plan.now) (CheckDue set))) a.status a.text) }
    ensures read { IsErrOf result End.Read → Rose (F.faults files.old) (F.faults files.new) }
    ensures counted { F.faults files.old ≤ F.faults files.new }
{
    match read_mode_file(alloc, file, files)? {
        ModeFile::Set(set) => check_plan(alloc, &set, plan, files),
        ModeFile::Refused(answer) => Ok(answer),
    }
}

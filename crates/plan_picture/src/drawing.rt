//! The top call.

ghost use Rattle.std.specs.Prelude.{◌≡◌, ◌≤◌, IfOk, IsErrOf, map, length};
ghost use Rattle.std.specs.List.{AllZip};
ghost use Rattle.app_graph.specs.Validation.{KeepsRules};
ghost use Rattle.ttw_io.specs.Outside.{Rose, OfFile};
ghost use Rattle.file_answers.specs.Due.{OfSet};
ghost use Rattle.file_answers.specs.Endings.{Ends};
ghost use Rattle.plan_picture.specs.Due.{Due, IsUsage, PictureDue};
ghost use Rattle.plan_picture.specs.Picture.{picture_text};

use crate::charts::sections_of;
use app_graph::ModeSet;
use file_answers::{
    Answer, End, ModeFile, PlanFile, READ_FAULT, Status, finish, read_mode_file, read_plan_file,
};
use sched_model::Schedule;
use std::alloc::{AllocError, Global};
use time_chart::write_sheet;
use ttw_io::{Files, Sink};
use ttw_text::Out;

/// The line of words that are not two names of files.
const USAGE: &str = "usage: ttw-picture FILE PLAN\n";

/// The answer to an accepted plan, which has a schedule or none for each mode.
fn picture_of(
    alloc: Global,
    set: &ModeSet,
    plans: &[Option<Schedule>],
) -> Result<Answer, AllocError>
    requires rules { KeepsRules set.now }
    requires each { length plans.now ≡ length set.now.modes }
    ensures status { IfOk result (λ a. a.status ≡ Status.Done) }
    ensures text { IfOk result (λ a. a.text ≡ picture_text set.now plans.now) }
{
    let sections = sections_of(alloc, set, plans)?;
    let mut text = Out::make(alloc);
    write_sheet(alloc, sections.as_slice(), &mut text)?;
    Ok(Answer {
        status: Status::Done,
        text,
    })
}

/// The answer to the plan of this name for the set.
fn draw_plan<F: Files>(
    alloc: Global,
    set: &ModeSet,
    plan: &str,
    files: &mut F,
) -> Result<Answer, End>
    requires { KeepsRules set.now }
    ensures due { IfOk result (λ a. OfFile (F.contents files.old plan.now) (PictureDue set.now) a.status a.text) }
    ensures read { IsErrOf result End.Read → Rose (F.faults files.old) (F.faults files.new) }
    ensures counted { F.faults files.old ≤ F.faults files.new }
{
    match read_plan_file(alloc, set, plan, files)? {
        PlanFile::Accepted(accepted) => Ok(picture_of(alloc, set, accepted.modes.as_slice())?),
        PlanFile::Refused(answer) => Ok(answer),
    }
}

/// The answer to the names of two files.
fn draw_files<F: Files>(alloc: Global, file: &str, plan: &str, files: &mut F) -> Result<Answer, End>
    ensures due { IfOk result (λ a. OfFile (F.contents files.old file.now) (OfSet (λ set. OfFile (F.contents files.old plan.now) (PictureDue set))) a.status a.text) }
    ensures read { IsErrOf result End.Read → Rose (F.faults files.old) (F.faults files.new) }
    ensures counted { F.faults files.old ≤ F.faults files.new }
{
    match read_mode_file(alloc, file, files)? {
        ModeFile::Set(set) => draw_plan(alloc, &set, plan, files),
        ModeFile::Refused(answer) => Ok(answer),
    }
}

/// The answer to words that are not two names of files.
fn usage(alloc: Global) -> Result<Answer, End>
    ensures due { IfOk result (λ a. IsUsage a.status a.text) }
    ensures read { IsErrOf result End.Read → ⊥ }
{
    Ok(Answer::told(alloc, Status::Usage, USAGE)?)
}

/// The answer to the words.
fn draw_words<F: Files>(alloc: Global, words: &[&str], files: &mut F) -> Result<Answer, End>
    ensures due { IfOk result (λ a. Due (map (λ w. w.now) words.now) (F.contents files.old) a.status a.text) }
    ensures read { IsErrOf result End.Read → Rose (F.faults files.old) (F.faults files.new) }
    ensures counted { F.faults files.old ≤ F.faults files.new }
{
    match words {
        [] => usage(alloc),
        [_] => usage(alloc),
        [file, plan] => draw_files(alloc, file, plan, files),
        [_, _, _, ..] => usage(alloc),
    }
}

/// Reads the mode file and the plan that the two words name, checks the plan, writes its picture or
/// the line that tells why not, and gives the status.
///
/// `docs/PICTURE.md` states what is drawn, and which line and status come when.
pub fn draw<F: Files, S: Sink>(alloc: Global, words: &[&str], files: &mut F, out: &mut S) -> Status
    ensures end { Ends
        (Due (map (λ w. w.now) words.now) (F.contents files.old))
        (record { reads_before = F.faults files.old; reads_now = F.faults files.new; sink = record { faults_before = S.faults out.old; faults_now = S.faults out.new; flushes_before = S.flushes out.old; flushes_now = S.flushes out.new; unflushed = S.unflushed out.new } })
        (S.held out.old) (S.held out.new) result }
    ensures reads { F.faults files.old ≤ F.faults files.new }
    ensures writes { S.faults out.old ≤ S.faults out.new }
{
    match draw_words(alloc, words, files) {
        Ok(answer) => finish(out, answer.status, answer.text.bytes()),
        Err(End::Read) => finish(out, Status::ReadFault, READ_FAULT.as_bytes()),
        Err(End::Memory) => Status::Memory,
    }
}

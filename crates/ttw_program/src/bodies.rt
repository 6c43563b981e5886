//! The bodies that the caller hands in.

ghost use Rattle.std.specs.Prelude.{◌≡◌, ◌++◌, [], IfOk, map, slice_index_or};
ghost use Rattle.std.specs.List.{flat_map};
ghost use Rattle.world_core.specs.StandsFor.{body_names};
ghost use Rattle.ttw_program.specs.Bodies as lines;
ghost use Rattle.ttw_program.specs.Bodies.{body_name};

use crate::fault_lines::no_body_line;
use app_graph::{App, Mode, ModeSet};
use file_answers::{Answer, Status};
use std::alloc::{AllocError, Global};

/// Adds the names of the bodies of the application's tasks.
fn add_app<'a>(names: &mut Vec<&'a [u8]>, app: &'a App) -> Result<(), AllocError>
    ensures { IfOk result (λ _. map (λ n. n.now) names.new.items
        ≡ map (λ n. n.now) names.old.items ++ map (λ t. t.body) app.now.tasks) }
{
    for task in app.tasks.as_slice() {
        names.push(task.body.as_bytes())?;
    }
    Ok(())
}

/// Adds the names of the bodies of the mode's tasks.
fn add_mode<'a>(names: &mut Vec<&'a [u8]>, mode: &'a Mode) -> Result<(), AllocError>
    ensures { IfOk result (λ _. map (λ n. n.now) names.new.items
        ≡ map (λ n. n.now) names.old.items
        ++ flat_map (λ app. map (λ t. t.body) app.tasks) mode.now.apps) }
{
    for app in mode.apps.as_slice() {
        add_app(names, app)?;
    }
    Ok(())
}

/// The names of the bodies of all tasks, by the task's number over the file.
fn names_of(alloc: Global, set: &ModeSet) -> Result<Vec<&[u8]>, AllocError>
    ensures { IfOk result (λ names. map (λ n. n.now) names.items ≡ body_names set.now) }
{
    let mut names = Vec::new(alloc);
    for mode in set.modes.as_slice() {
        add_mode(&mut names, mode)?;
    }
    Ok(names)
}

/// The name at a place, empty past the last one.
fn name_at<'a>(names: &[&'a [u8]], place: u32) -> &'a [u8]
    ensures { result.now ≡ slice_index_or (map (λ n. n.now) names.now) place [] }
{
    match names.get(place as usize) {
        Some(name) => name,
        None => &[],
    }
}

/// The answer to a set of which the task of this number has no body.
pub(crate) fn no_body(alloc: Global, set: &ModeSet, task: u32) -> Result<Answer, AllocError>
    ensures status { IfOk result (λ a. a.status ≡ Status.ModeFile) }
    ensures text { IfOk result (λ a. a.text ≡ lines.no_body_line (body_name set.now task)) }
{
    let names = names_of(alloc, set)?;
    Ok(Answer {
        status: Status::ModeFile,
        text: no_body_line(alloc, name_at(names.as_slice(), task))?,
    })
}

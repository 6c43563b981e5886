//! The command `tables`.

ghost use Rattle.std.specs.Prelude.{◌≡◌, ◌≤◌, ◌<◌, ◌++◌, length, position, IfOk, IsErrOf, OnOk};
ghost use Rattle.std.specs.Str.{bytes_eq};
ghost use Rattle.app_graph.specs.Validation.{KeepsRules};
ghost use Rattle.runtime_model.specs.Plans.{AreSchedules};
ghost use Rattle.proof_tree.specs.Accepting.{IsRight, doc_modes};
ghost use Rattle.std.specs.List.{AllZip};
ghost use Rattle.ttw_io.specs.Outside.{Rose, OfFile};
ghost use Rattle.file_answers.specs.Due.{OfSet};
ghost use Rattle.file_answers.specs.PlanFiles.{OfSchedules};
ghost use Rattle.ttw_program.specs.Tables.{ImageDue, IsImage, TablesDue, hex_line, hex_text};

use crate::fault_lines::unknown_node_line;
use app_graph::{ListOf, ModeSet};
use file_answers::{
    Answer, End, ModeFile, PlanFile, Schedules, Status, none_line, read_mode_file, read_plan_file,
    schedules_of,
};
use node_tables::{tables_of, write_image};
use sched_model::Schedule;
use std::alloc::{AllocError, Global};
use ttw_io::Files;
use ttw_text::Out;

/// How many bytes stand in a line of hexadecimal digits.
const LINE_BYTES: usize = 32;

/// Adds a line with the bytes in hexadecimal.
fn write_hex_line(alloc: Global, bytes: &[u8], out: &mut Out) -> Result<(), AllocError>
    ensures { OnOk result (out.new ≡ out.old ++ hex_line bytes.now) }
{
    let digits = hex::encode(alloc, bytes)?;
    out.put(digits.as_bytes())?;
    out.line_end()
}

/// Adds the lines of the bytes in hexadecimal.
fn write_hex(alloc: Global, bytes: &[u8], out: &mut Out) -> Result<(), AllocError>
    ensures { OnOk result (out.new ≡ out.old ++ hex_text bytes.now) }
{
    for line in bytes.chunks(LINE_BYTES) {
        write_hex_line(alloc, line, out)?;
    }
    Ok(())
}

/// The answer with the image of the node's part of the plans.
fn image_answer(
    alloc: Global,
    set: &ModeSet,
    schedules: &[Schedule],
    node: u32,
) -> Result<Answer, AllocError>
    requires rules { KeepsRules set.now }
    requires schedules { AreSchedules set.now schedules.now }
    requires node { node < length set.now.nodes }
    ensures { IfOk result (λ a. IsImage set.now node schedules.now a.status a.text) }
{
    let table = tables_of(alloc, set, schedules, node)?;
    let mut image = Out::make(alloc);
    write_image(alloc, &table, &mut image)?;
    let mut text = Out::make(alloc);
    write_hex(alloc, image.bytes(), &mut text)?;
    Ok(Answer {
        status: Status::Done,
        text,
    })
}

/// The answer to an accepted plan with these schedules.
fn tables_accepted(
    alloc: Global,
    set: &ModeSet,
    plans: ListOf<Option<Schedule>>,
    node: u32,
) -> Result<Answer, AllocError>
    requires rules { KeepsRules set.now }
    requires right { AllZip IsRight (doc_modes set.now) plans }
    requires node { node < length set.now.nodes }
    ensures { IfOk result (λ a. OfSchedules set.now (IsImage set.now node) plans a.status a.text) }
{
    match schedules_of(alloc, plans)? {
        Schedules::All(schedules) => image_answer(alloc, set, schedules.as_slice(), node),
        Schedules::Without(mode) => Ok(Answer {
            status: Status::Plan,
            text: none_line(alloc, set, mode as u32)?,
        }),
    }
}

/// The answer to the plan of this name for the node.
fn tables_plan<F: Files>(
    alloc: Global,
    set: &ModeSet,
    plan: &str,
    node: u32,
    files: &mut F,
) -> Result<Answer, End>
    requires rules { KeepsRules set.now }
    requires node { node < length set.now.nodes }
    ensures due { IfOk result (λ a. OfFile (F.contents files.old plan.now) (ImageDue set.now node) a.status a.text) }
    ensures read { IsErrOf result End.Read → Rose (F.faults files.old) (F.faults files.new) }
    ensures counted { F.faults files.old ≤ F.faults files.new }
{
    match read_plan_file(alloc, set, plan, files)? {
        PlanFile::Accepted(accepted) => Ok(tables_accepted(alloc, set, accepted.modes, node)?),
        PlanFile::Refused(answer) => Ok(answer),
    }
}

/// The number of the node of this name.
fn node_named(set: &ModeSet, name: &[u8]) -> Option<usize>
    ensures { result ≡ position (bytes_eq name.now) set.now.nodes }
{
    set.nodes
        .as_slice()
        .iter()
        .position(|node| name == node.as_bytes())
}

/// The answer for the node of this name.
fn tables_node<F: Files>(
    alloc: Global,
    set: &ModeSet,
    plan: &str,
    node: &str,
    files: &mut F,
) -> Result<Answer, End>
    requires { KeepsRules set.now }
    ensures due { IfOk result (λ a. TablesDue (F.contents files.old plan.now) node.now set.now a.status a.text) }
    ensures read { IsErrOf result End.Read → Rose (F.faults files.old) (F.faults files.new) }
    ensures counted { F.faults files.old ≤ F.faults files.new }
{
    match node_named(set, node.as_bytes()) {
        Some(place) => tables_plan(alloc, set, plan, place as u32, files),
        None => Ok(Answer {
            status: Status::ModeFile,
            text: unknown_node_line(alloc, node.as_bytes())?,
        }),
    }
}

/// The answer to `tables FILE PLAN NODE`.
pub(crate) fn answer_tables<F: Files>(
    alloc: Global,
    file: &str,
    plan: &str,
    node: &str,
    files: &mut F,
) -> Result<Answer, End>
    ensures due { IfOk result (λ a. OfFile (F.contents files.old file.now) (OfSet (TablesDue (F.contents files.old plan.now) node.now)) a.status a.text) }
    ensures read { IsErrOf result End.Read → Rose (F.faults files.old) (F.faults files.new) }
    ensures counted { F.faults files.old ≤ F.faults files.new }
{
    match read_mode_file(alloc, file, files)? {
        ModeFile::Set(set) => tables_node(alloc, &set, plan, node, files),
        ModeFile::Refused(answer) => Ok(answer),
    }
}

//! The command `guard`.

ghost use Rattle.std.specs.Prelude.{◌≡◌, ◌≤◌, ◌++◌, IfOk, IsErrOf, OnOk};
ghost use Rattle.app_graph.specs.Validation.{KeepsRules};
ghost use Rattle.ttw_io.specs.Outside.{Rose, OfFile};
ghost use Rattle.file_answers.specs.Due.{OfSet};
ghost use Rattle.ttw_program.specs.Guards.{GuardDue, break_line, guard_lines, guard_text, number_line};

use app_graph::ModeSet;
use file_answers::{Answer, End, ModeFile, Status, read_mode_file};
use guard::{Guard, LeastGuard, least_guard};
use std::alloc::{AllocError, Global};
use ttw_io::Files;
use ttw_text::Out;

/// Adds some words and a number, as a line.
fn write_number(words: &[u8], number: u64, out: &mut Out) -> Result<(), AllocError>
    ensures { OnOk result (out.new ≡ out.old ++ number_line words.now number) }
{
    out.put(words)?;
    out.number(number)?;
    out.line_end()
}

/// Adds the line of the two parts that overlap under one tick less.
fn write_break(guard: LeastGuard, out: &mut Out) -> Result<(), AllocError>
    ensures { OnOk result (out.new ≡ out.old ++ break_line guard) }
{
    out.put(b"break ")?;
    out.number(guard.first as u64)?;
    write_number(b" ", guard.second as u64, out)
}

/// Adds the lines of the least guard, or that there is none.
fn write_guard(guard: Option<LeastGuard>, out: &mut Out) -> Result<(), AllocError>
    ensures { OnOk result (out.new ≡ out.old ++ guard_lines guard) }
{
    match guard {
        None => out.put(b"guard none\n"),
        Some(guard) => {
            write_number(b"guard ", guard.ticks.unsigned_abs(), out)?;
            write_break(guard, out)
        }
    }
}

/// The text of an answer.
fn text_of(alloc: Global, answer: Guard) -> Result<Out, AllocError>
    ensures { IfOk result (λ text. text ≡ guard_text answer) }
{
    let mut text = Out::make(alloc);
    write_number(b"part ", answer.part.unsigned_abs(), &mut text)?;
    write_guard(answer.guard, &mut text)?;
    write_number(b"wake ", answer.wake.unsigned_abs(), &mut text)?;
    Ok(text)
}

/// The answer for the set that a mode file says.
fn guard_set(alloc: Global, set: &ModeSet, ppm: u32) -> Result<Answer, AllocError>
    requires rules { KeepsRules set.now }
    requires drift { (1 ≤ ppm) × (ppm ≤ 100000) }
    ensures { IfOk result (λ a. GuardDue ppm set.now a.status a.text) }
{
    let guard = least_guard(set, ppm);
    Ok(Answer {
        status: Status::Done,
        text: text_of(alloc, guard)?,
    })
}

/// The answer to `guard FILE PPM`.
pub(crate) fn answer_guard<F: Files>(
    alloc: Global,
    file: &str,
    ppm: u32,
    files: &mut F,
) -> Result<Answer, End>
    requires { (1 ≤ ppm) × (ppm ≤ 100000) }
    ensures due { IfOk result (λ a. OfFile (F.contents files.old file.now) (OfSet (GuardDue ppm)) a.status a.text) }
    ensures read { IsErrOf result End.Read → Rose (F.faults files.old) (F.faults files.new) }
    ensures counted { F.faults files.old ≤ F.faults files.new }
{
    match read_mode_file(alloc, file, files)? {
        ModeFile::Set(set) => Ok(guard_set(alloc, &set, ppm)?),
        ModeFile::Refused(answer) => Ok(answer),
    }
}

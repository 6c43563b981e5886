//! Scripts.

ghost use Rattle.std.specs.Prelude.{◌≡◌, ◌+◌, ◌≤◌, ◌++◌, ◌∷◌, [], None, Some, filter_map, IfOk, IfErr, OnOk};
ghost use Rattle.app_graph.specs.Validation.{KeepsRules};
ghost use Rattle.replay_script.specs.declared.fault.ScriptFault.TheVariants.{Memory};
ghost use Rattle.replay_script.specs.Fitting.{FitsScript};
ghost use Rattle.replay_script.specs.Form.{Restart};
ghost use Rattle.replay_script.specs.Meaning.{meaning};
ghost use Rattle.replay_script.specs.Script.{Fits, Gives, Reads, asked, content, fault_at, given, name_fault, steps, steps_of};

use crate::fault::ScriptFault;
use crate::form::{LineForm, line_form};
use crate::line::Line;
use crate::naming::{are_nodes, lost_nodes, mode_of, node_of};
use app_graph::{ListOf, ModeSet};
use std::alloc::Global;
use ttw_text::{cut, without_feed};

/// The most lines of a script.
const MOST_LINES: u64 = 10_000;

/// The most bytes of a script.
const MOST_BYTES: usize = 1_048_576;

/// The most Advances of the `go` lines of a script.
const MOST_STEPS: u64 = 1_000_000;

/// A line without its line feed, where it ends with one.
fn content(line: &[u8]) -> &[u8]
    ensures { result.now ≡ content line.now }
{
    without_feed(line).unwrap_or(line)
}

/// The Advances that a form counts for.
fn steps_of(form: &LineForm<'_>) -> u64
    ensures { result ≡ steps_of (meaning form.now) }
{
    match form {
        LineForm::Go(n) => *n,
        LineForm::Passed
        | LineForm::UntilBeacon
        | LineForm::Lose(_)
        | LineForm::Request(_)
        | LineForm::Restart(_) => 0,
    }
}

/// The line that a restart of the named node gives.
fn restart(set: &ModeSet, number: u64, name: &[u8]) -> Result<Option<Line>, ScriptFault>
    requires { Fits set.now }
    ensures ok { IfOk result (λ line. Gives set.now number (Restart name.now) line) }
    ensures err { IfErr result (λ fault. name_fault set.now number (Restart name.now) ≡ Some fault) }
{
    match node_of(set, name) {
        None => Err(ScriptFault::Unknown(number)),
        Some(node) => {
            if node == set.host {
                return Err(ScriptFault::HostNamed(number));
            }
            Ok(Some(Line::Restart(node)))
        }
    }
}

/// The line that a form gives, whose names become numbers; none where it is passed over.
fn give(set: &ModeSet, number: u64, form: &LineForm<'_>) -> Result<Option<Line>, ScriptFault>
    requires { Fits set.now }
    ensures ok { IfOk result (λ line. Gives set.now number (meaning form.now) line) }
    ensures err { IfErr result (λ fault. name_fault set.now number (meaning form.now) ≡ Some fault) }
{
    match form {
        LineForm::Passed => Ok(None),
        LineForm::Go(n) => Ok(Some(Line::Go(*n))),
        LineForm::UntilBeacon => Ok(Some(Line::UntilBeacon)),
        LineForm::Lose(names) => {
            if !are_nodes(set, names) {
                return Err(ScriptFault::Unknown(number));
            }
            Ok(Some(Line::Lose(lost_nodes(set, names))))
        }
        LineForm::Request(name) => match mode_of(set, name) {
            None => Err(ScriptFault::Unknown(number)),
            Some(mode) => Ok(Some(Line::Request(mode))),
        },
        LineForm::Restart(name) => restart(set, number, name),
    }
}

/// What was read of a line: the line that it gives, and the Advances of the `go` lines up to it.
#[derive(Drop)]
struct LineRead {
    line: Option<Line>,
    sum: u64,
}

/// Reads the line of this number, which ends at the place `end` and before which the `go` lines have this sum.
fn read_line(
    set: &ModeSet,
    number: u64,
    end: usize,
    sum: u64,
    line: &[u8],
) -> Result<LineRead, ScriptFault>
    requires fits { Fits set.now }
    requires within { sum ≤ 1000000 }
    ensures ok { IfOk result (λ read. fault_at set.now number end read.sum line.now ≡ None) }
    ensures line { IfOk result (λ read. read.line ≡ given set.now (asked line.now)) }
    ensures sum { IfOk result (λ read. read.sum ≡ sum + steps line.now) }
    ensures within { IfOk result (λ read. (number ≤ 10000) × (read.sum ≤ 1000000)) }
    ensures err { IfErr result (λ fault. fault_at set.now number end (sum + steps line.now) line.now ≡ Some fault) }
{
    if number > MOST_LINES {
        return Err(ScriptFault::TooMany(number));
    }
    if end > MOST_BYTES {
        return Err(ScriptFault::TooMany(number));
    }
    let form = match line_form(content(line)) {
        None => return Err(ScriptFault::BadLine(number)),
        Some(form) => form,
    };
    let steps = steps_of(&form);
    if steps > MOST_STEPS - sum {
        return Err(ScriptFault::TooMany(number));
    }
    let line = give(set, number, &form)?;
    Ok(LineRead {
        line,
        sum: sum + steps,
    })
}

/// Puts the line behind the others, where there is one.
fn put(script: &mut Vec<Line>, line: Option<Line>) -> Result<(), ScriptFault>
    ensures ok { OnOk result (script.new.items ≡ script.old.items ++ filter_map (λ l. l) (line ∷ [])) }
    ensures err { IfErr result (λ fault. fault ≡ Memory) }
{
    match line {
        None => Ok(()),
        Some(line) => {
            script.push(line)?;
            Ok(())
        }
    }
}

/// The lines of a script that are not passed over, in their order, for a mode set that keeps its rules. Errors: the fault of the first
/// faulty line; want of memory. Memory is taken for the list alone. docs/SCRIPT.md states the format.
pub fn read_script(alloc: Global, set: &ModeSet, text: &[u8]) -> Result<ListOf<Line>, ScriptFault>
    requires { KeepsRules set.now }
    ensures exact { Reads set.now text.now result }
    ensures fits { IfOk result (FitsScript set.now) }
{
    let mut script = Vec::new(alloc);
    let mut from = 0;
    let mut number = 1;
    let mut sum = 0;
    while let Some((line, next)) = cut(text, from) {
        let read = read_line(set, number, next, sum, line)?;
        put(&mut script, read.line)?;
        sum = read.sum;
        from = next;
        number += 1;
    }
    Ok(ListOf::from_vec(script))
}

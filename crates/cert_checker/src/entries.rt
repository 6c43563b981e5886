//! The lines of a schedule, each as it is due.

ghost use Rattle.std.specs.Prelude.{◌≡◌, ◌<◌, ◌≤◌, pos, All, IfOk, IfErr, IfNone, IfSome, Ok, Some, true, false, length, map, find};
ghost use Rattle.std.specs.List.{list_all};
ghost use Rattle.std.specs.Option.{option_copied};
ghost use Rattle.std.specs.Str.{bytes_eq};
ghost use Rattle.sched_model.specs.RightSchedule.{IsMessage};
ghost use Rattle.sched_model.specs.TimeLimits.{IsTime};
ghost use Rattle.proof_tree.specs.Accepting.{is_message, number_of};
ghost use Rattle.proof_tree.specs.Grammar.{value};
ghost use Rattle.proof_tree.specs.Names.{messages_in};
ghost use Rattle.proof_tree.specs.PlanLines.{meaning};
ghost use Rattle.proof_tree.specs.Reading.{message_at, starts_at, table_at, task_at};
ghost use Rattle.proof_tree.specs.TreeLines.{Items};
ghost use Rattle.cert_checker.specs.DraftReading.{doc_at, moments};
ghost use Rattle.cert_checker.specs.Refusals.{Fails, FitsLine};
ghost use Rattle.cert_checker.specs.TreeStack.{behind_line, line_at};

use crate::refused::Refused;
use app_graph::{App, Message, ModeSet};
use proof_tree::{PlanLine, value};
use sched_model::apps_of;
use std::alloc::{AllocError, Global};
use tick_num::Time;
use ttw_text::Parts;

/// The offset of the task of this name, which is due at the line.
pub(crate) fn task_of(name: &[u8], line: u64, item: &PlanLine<'_>) -> Result<u64, Refused>
    requires fits { FitsLine (meaning item.now) }
    ensures ok { IfOk result (λ o. (rest : Items) → task_at name.now (line_at line (meaning item.now) rest) (Some (meaning item.now)) ≡ Ok (o, behind_line line rest)) }
    ensures few { IfOk result (λ o. o ≤ 2000000000000) }
    ensures err { IfErr result (λ e. (rest : Items) → Fails e (task_at name.now (line_at line (meaning item.now) rest) (Some (meaning item.now)))) }
{
    match item {
        PlanLine::Task(found, offset) => {
            if *found != name {
                return Err(Refused::Names(line));
            }
            Ok(*offset)
        }
        PlanLine::Head
        | PlanLine::Mode(_)
        | PlanLine::Refute(_)
        | PlanLine::Branch
        | PlanLine::Short
        | PlanLine::Full(_)
        | PlanLine::Cycle(_)
        | PlanLine::Schedule(_)
        | PlanLine::Start(_)
        | PlanLine::Message(_, _, _)
        | PlanLine::Table(_, _)
        | PlanLine::Absent
        | PlanLine::End => Err(Refused::Grammar(line)),
    }
}

/// Where the first window of the message of this name, which is due at the line, opens and closes.
pub(crate) fn message_of(name: &[u8], line: u64, item: &PlanLine<'_>) -> Result<(u64, u64), Refused>
    requires fits { FitsLine (meaning item.now) }
    ensures ok { IfOk result (λ w. (rest : Items) → message_at name.now (line_at line (meaning item.now) rest) (Some (meaning item.now)) ≡ Ok (w, behind_line line rest)) }
    ensures few { IfOk result (λ w. (w.0 ≤ 2000000000000) × (w.1 ≤ 2000000000000)) }
    ensures err { IfErr result (λ e. (rest : Items) → Fails e (message_at name.now (line_at line (meaning item.now) rest) (Some (meaning item.now)))) }
{
    match item {
        PlanLine::Message(named, opens, closes) => {
            if *named != name {
                return Err(Refused::Names(line));
            }
            Ok((*opens, *closes))
        }
        PlanLine::Head
        | PlanLine::Mode(_)
        | PlanLine::Refute(_)
        | PlanLine::Branch
        | PlanLine::Short
        | PlanLine::Full(_)
        | PlanLine::Cycle(_)
        | PlanLine::Schedule(_)
        | PlanLine::Start(_)
        | PlanLine::Task(_, _)
        | PlanLine::Table(_, _)
        | PlanLine::Absent
        | PlanLine::End => Err(Refused::Grammar(line)),
    }
}

/// The numbers of words, as moments.
fn times_of(alloc: Global, words: &Parts<'_>) -> Result<Vec<Time>, AllocError>
    ensures times { IfOk result (λ v. v.items ≡ map pos (map value words.now)) }
    ensures few { IfOk result (λ v. All IsTime v.items) }
{
    let mut times = Vec::new(alloc);
    let mut left = words.again();
    while let Some(word) = left.next() {
        times.push(value(word) as i64)?;
    }
    Ok(times)
}

/// The starts of so many rounds, which are due at the line.
pub(crate) fn starts_of(
    alloc: Global,
    rounds: u64,
    line: u64,
    item: &PlanLine<'_>,
) -> Result<Vec<Time>, Refused>
    ensures ok { IfOk result (λ v. (rest : Items) → moments (starts_at rounds (line_at line (meaning item.now) rest) (Some (meaning item.now))) ≡ Ok (v.items, behind_line line rest)) }
    ensures count { IfOk result (λ v. length v.items ≡ rounds) }
    ensures few { IfOk result (λ v. All IsTime v.items) }
    ensures err { IfErr result (λ e. (rest : Items) → Fails e (moments (starts_at rounds (line_at line (meaning item.now) rest) (Some (meaning item.now))))) }
{
    match item {
        PlanLine::Start(words) => {
            let times = times_of(alloc, words)?;
            if times.len() as u64 != rounds {
                return Err(Refused::Grammar(line));
            }
            Ok(times)
        }
        PlanLine::Head
        | PlanLine::Mode(_)
        | PlanLine::Refute(_)
        | PlanLine::Branch
        | PlanLine::Short
        | PlanLine::Full(_)
        | PlanLine::Cycle(_)
        | PlanLine::Schedule(_)
        | PlanLine::Task(_, _)
        | PlanLine::Message(_, _, _)
        | PlanLine::Table(_, _)
        | PlanLine::Absent
        | PlanLine::End => Err(Refused::Grammar(line)),
    }
}

/// The message of this name, where there is one.
fn message_named<'a>(apps: &'a [App], name: &[u8]) -> Option<&'a Message>
    ensures { option_copied result ≡ find (λ message. bytes_eq name.now message.name) (messages_in apps.now) }
{
    apps.iter()
        .flat_map(|app| app.messages.as_slice())
        .find(|message| name == message.name.as_bytes())
}

/// The number of the mode's message of this name. None exactly where no message has it.
fn number_of(set: &ModeSet, mode: u32, name: &[u8]) -> Option<u32>
    requires { mode < length set.now.modes }
    ensures none { IfNone result (is_message (doc_at set.now mode) name.now ≡ false) }
    ensures some { IfSome result (λ n. (is_message (doc_at set.now mode) name.now ≡ true) × (n ≡ number_of (doc_at set.now mode) name.now) × IsMessage (doc_at set.now mode).mode n) }
{
    match message_named(apps_of(set, mode), name) {
        None => None,
        Some(message) => Some(message.number),
    }
}

/// The numbers of the mode's messages of these names. None exactly where one of the names is none of a message.
fn numbers_of(
    alloc: Global,
    set: &ModeSet,
    mode: u32,
    names: &Parts<'_>,
) -> Result<Option<Vec<u32>>, AllocError>
    requires { mode < length set.now.modes }
    ensures none { IfOk result (λ o. IfNone o (list_all (is_message (doc_at set.now mode)) names.now ≡ false)) }
    ensures some { IfOk result (λ o. IfSome o (λ v. (list_all (is_message (doc_at set.now mode)) names.now ≡ true) × (v.items ≡ map (number_of (doc_at set.now mode)) names.now) × All (IsMessage (doc_at set.now mode).mode) v.items)) }
{
    let mut numbers = Vec::new(alloc);
    let mut left = names.again();
    while let Some(name) = left.next() {
        match number_of(set, mode, name) {
            None => return Ok(None),
            Some(number) => {
                numbers.push(number)?;
            }
        }
    }
    Ok(Some(numbers))
}

/// The numbers of the messages of the round, from 1, whose table is due at the line.
pub(crate) fn table_of(
    alloc: Global,
    set: &ModeSet,
    mode: u32,
    round: u64,
    line: u64,
    item: &PlanLine<'_>,
) -> Result<Vec<u32>, Refused>
    requires { mode < length set.now.modes }
    ensures ok { IfOk result (λ v. (rest : Items) → table_at (doc_at set.now mode) round (line_at line (meaning item.now) rest) (Some (meaning item.now)) ≡ Ok (v.items, behind_line line rest)) }
    ensures numbers { IfOk result (λ v. All (IsMessage (doc_at set.now mode).mode) v.items) }
    ensures err { IfErr result (λ e. (rest : Items) → Fails e (table_at (doc_at set.now mode) round (line_at line (meaning item.now) rest) (Some (meaning item.now)))) }
{
    match item {
        PlanLine::Table(number, names) => {
            if *number != round {
                return Err(Refused::Grammar(line));
            }
            match numbers_of(alloc, set, mode, names)? {
                None => Err(Refused::Names(line)),
                Some(numbers) => Ok(numbers),
            }
        }
        PlanLine::Head
        | PlanLine::Mode(_)
        | PlanLine::Refute(_)
        | PlanLine::Branch
        | PlanLine::Short
        | PlanLine::Full(_)
        | PlanLine::Cycle(_)
        | PlanLine::Schedule(_)
        | PlanLine::Start(_)
        | PlanLine::Task(_, _)
        | PlanLine::Message(_, _, _)
        | PlanLine::Absent
        | PlanLine::End => Err(Refused::Grammar(line)),
    }
}

//! A document, read line by line.

ghost use Rattle.std.specs.Prelude.{◌≡◌, ◌+◌, ◌<◌, ◌≤◌, ◌∷◌, [], ◌++◌, List, Option, Ok, Some, length, IfOk, IfErr, OnOk, IsTrue, unwrap_or};
ghost use Rattle.app_graph.specs.Validation.{KeepsRules};
ghost use Rattle.proof_tree.specs.Accepting.{IsRight, doc_modes};
ghost use Rattle.proof_tree.specs.PlanLines.{meaning};
ghost use Rattle.proof_tree.specs.Reading.{fixed, is_end, is_head, mode_line};
ghost use Rattle.proof_tree.specs.TreeLines.{Items};
ghost use Rattle.cert_checker.specs.DocumentStages.{BreaksSo, FrontRight, Halts, IsStage, Refutes, document_due, stage_due};
ghost use Rattle.cert_checker.specs.DraftReading.{doc_at};
ghost use Rattle.cert_checker.specs.ModeReading.{IsInside, IsShaped};
ghost use Rattle.cert_checker.specs.Refusals.{Fails, FitsLine};
ghost use Rattle.cert_checker.specs.TreeStack.{behind_line, line_at};

use crate::counts::{Inside, Next};
use crate::refused::Refused;
use app_graph::ModeSet;
use proof_tree::PlanLine;
use sched_model::{Schedule, mode_name, verify};
use std::alloc::Global;

/// What is due in a document.
#[derive(Drop)]
pub(crate) enum Stage<'a> {
    /// The first line.
    Head,
    /// The next mode, or the end.
    Mode,
    /// A line inside a mode.
    Within(Inside<'a>),
    /// No line.
    Nothing,
}

/// Takes the first line.
fn take_head(line: u64, item: &PlanLine<'_>) -> Result<(), Refused>
    ensures ok { OnOk result ((rest : Items) → fixed is_head (line_at line (meaning item.now) rest) ≡ Ok (tt, behind_line line rest)) }
    ensures err { IfErr result (λ e. (rest : Items) → Fails e (fixed is_head (line_at line (meaning item.now) rest))) }
{
    match item {
        PlanLine::Head => Ok(()),
        PlanLine::Mode(_)
        | PlanLine::Refute(_)
        | PlanLine::Branch
        | PlanLine::Short
        | PlanLine::Full(_)
        | PlanLine::Cycle(_)
        | PlanLine::Schedule(_)
        | PlanLine::Start(_)
        | PlanLine::Task(_, _)
        | PlanLine::Message(_, _, _)
        | PlanLine::Table(_, _)
        | PlanLine::Absent
        | PlanLine::End => Err(Refused::Grammar(line)),
    }
}

/// Takes the last line.
fn take_end(line: u64, item: &PlanLine<'_>) -> Result<(), Refused>
    ensures ok { OnOk result ((rest : Items) → fixed is_end (line_at line (meaning item.now) rest) ≡ Ok (tt, behind_line line rest)) }
    ensures err { IfErr result (λ e. (rest : Items) → Fails e (fixed is_end (line_at line (meaning item.now) rest))) }
{
    match item {
        PlanLine::End => Ok(()),
        PlanLine::Head
        | PlanLine::Mode(_)
        | PlanLine::Refute(_)
        | PlanLine::Branch
        | PlanLine::Short
        | PlanLine::Full(_)
        | PlanLine::Cycle(_)
        | PlanLine::Schedule(_)
        | PlanLine::Start(_)
        | PlanLine::Task(_, _)
        | PlanLine::Message(_, _, _)
        | PlanLine::Table(_, _)
        | PlanLine::Absent => Err(Refused::Grammar(line)),
    }
}

/// Takes the line that begins the mode of this number.
fn take_name(set: &ModeSet, mode: u32, line: u64, item: &PlanLine<'_>) -> Result<(), Refused>
    requires { mode < length set.now.modes }
    ensures ok { OnOk result ((rest : Items) → mode_line (doc_at set.now mode) (line_at line (meaning item.now) rest) (Some (meaning item.now)) ≡ Ok (tt, behind_line line rest)) }
    ensures err { IfErr result (λ e. (rest : Items) → Fails e (mode_line (doc_at set.now mode) (line_at line (meaning item.now) rest) (Some (meaning item.now)))) }
{
    match item {
        PlanLine::Mode(name) => {
            if *name != mode_name(set, mode) {
                return Err(Refused::Names(line));
            }
            Ok(())
        }
        PlanLine::Head
        | PlanLine::Refute(_)
        | PlanLine::Branch
        | PlanLine::Short
        | PlanLine::Full(_)
        | PlanLine::Cycle(_)
        | PlanLine::Schedule(_)
        | PlanLine::Start(_)
        | PlanLine::Task(_, _)
        | PlanLine::Message(_, _, _)
        | PlanLine::Table(_, _)
        | PlanLine::Absent
        | PlanLine::End => Err(Refused::Grammar(line)),
    }
}

/// Tests the plan of the mode of this number: a schedule is right.
fn check_plan(set: &ModeSet, mode: u32, plan: &Option<Schedule>) -> Result<(), Refused>
    requires rules { KeepsRules set.now }
    requires mode { mode < length set.now.modes }
    requires shape { IsShaped (doc_at set.now mode) plan.now }
    ensures ok { OnOk result (IsRight (doc_at set.now mode) plan.now) }
    ensures err { IfErr result (λ e. BreaksSo mode (doc_at set.now mode) plan.now e) }
{
    match plan {
        None => Ok(()),
        Some(schedule) => match verify(set, mode, schedule) {
            Ok(()) => Ok(()),
            Err(clause) => Err(Refused::Schedule(mode, clause)),
        },
    }
}

/// The number of a mode, out of those of the set.
fn number_of(set: &ModeSet, mode: usize) -> u32
    requires rules { KeepsRules set.now }
    requires mode { mode ≤ length set.now.modes }
    ensures { result ≡ mode }
{
    mode as u32
}

/// Takes a line where the mode of this number is due, or the end.
fn take_mode<'a>(
    set: &ModeSet,
    mode: usize,
    line: u64,
    item: &PlanLine<'_>,
) -> Result<Stage<'a>, Refused>
    requires rules { KeepsRules set.now }
    requires mode { mode ≤ length set.now.modes }
    ensures stage { IfOk result (λ next. (plans : List (Option Schedule)) → length plans ≡ mode → IsStage set.now plans next) }
    ensures goes { IfOk result (λ next. (rest : Items) → stage_due set.now mode Stage.Mode (line_at line (meaning item.now) rest) ≡ stage_due set.now mode next (behind_line line rest)) }
    ensures err { IfErr result (λ e. (rest : Items) → Halts e (stage_due set.now mode Stage.Mode (line_at line (meaning item.now) rest))) }
{
    if mode < set.modes.as_slice().len() {
        take_name(set, number_of(set, mode), line, item)?;
        return Ok(Stage::Within(Inside::Count(1)));
    }
    take_end(line, item)?;
    Ok(Stage::Nothing)
}

/// Takes a line inside the mode that comes after those whose plans were read. Answers what is due next, where
/// it is not what `inside` says now.
fn take_inside<'a>(
    alloc: Global,
    set: &'a ModeSet,
    plans: &mut Vec<Option<Schedule>>,
    inside: &mut Inside<'a>,
    line: u64,
    item: &PlanLine<'_>,
) -> Result<Option<Stage<'a>>, Refused>
    requires rules { KeepsRules set.now }
    requires stage { IsStage set.now plans.old.items (Stage.Within inside.old) }
    requires right { FrontRight (doc_modes set.now) plans.old.items }
    requires fits { FitsLine (meaning item.now) }

    ensures stage { IfOk result (λ next. IsStage set.now plans.new.items
        (unwrap_or next (Stage.Within inside.new))) }
    ensures right { OnOk result (FrontRight (doc_modes set.now) plans.new.items) }
    ensures goes { IfOk result (λ next. (rest : Items) →
        document_due set.now plans.old.items (Stage.Within inside.old)
        (line_at line (meaning item.now) rest)
        ≡ document_due set.now plans.new.items (unwrap_or next (Stage.Within inside.new))
        (behind_line line rest)) }
    ensures err { IfErr result (λ e. (rest : Items) → Refutes set.now e
        (document_due set.now plans.old.items (Stage.Within inside.old)
        (line_at line (meaning item.now) rest))) }
{
    let mode = number_of(set, plans.len());
    match inside.take(alloc, set, mode, line, item)? {
        Next::More => Ok(None),
        Next::Due(next) => Ok(Some(Stage::Within(next))),
        Next::Plan(plan) => {
            check_plan(set, mode, &plan)?;
            plans.push(plan)?;
            Ok(Some(Stage::Mode))
        }
    }
}

impl<'a> Stage<'a> {
    /// Takes a line, after those whose plans were read, and answers what is due next, where it is not what the
    /// stage says now. A tree or a schedule that goes on is changed in place.
    fn next(
        &mut self,
        alloc: Global,
        set: &'a ModeSet,
        plans: &mut Vec<Option<Schedule>>,
        line: u64,
        item: &PlanLine<'_>,
    ) -> Result<Option<Stage<'a>>, Refused>
        requires rules { KeepsRules set.now }
        requires stage { IsStage set.now plans.old.items self.old }
        requires right { FrontRight (doc_modes set.now) plans.old.items }
        requires fits { FitsLine (meaning item.now) }

        ensures stage { IfOk result (λ next. IsStage set.now plans.new.items
            (unwrap_or next self.new)) }
        ensures right { OnOk result (FrontRight (doc_modes set.now) plans.new.items) }
        ensures goes { IfOk result (λ next. (rest : Items) →
            document_due set.now plans.old.items self.old (line_at line (meaning item.now) rest)
            ≡ document_due set.now plans.new.items (unwrap_or next self.new)
            (behind_line line rest)) }
        ensures err { IfErr result (λ e. (rest : Items) → Refutes set.now e
            (document_due set.now plans.old.items self.old
            (line_at line (meaning item.now) rest))) }
    {
        match self {
            Stage::Head => {
                take_head(line, item)?;
                Ok(Some(Stage::Mode))
            }
            Stage::Mode => Ok(Some(take_mode(set, plans.len(), line, item)?)),
            Stage::Within(inside) => take_inside(alloc, set, plans, inside, line, item),
            Stage::Nothing => Err(Refused::Grammar(line)),
        }
    }

    /// Takes a line, after those whose plans were read.
    pub(crate) fn take(
        &mut self,
        alloc: Global,
        set: &'a ModeSet,
        plans: &mut Vec<Option<Schedule>>,
        line: u64,
        item: &PlanLine<'_>,
    ) -> Result<(), Refused>
        requires rules { KeepsRules set.now }
        requires stage { IsStage set.now plans.old.items self.old }
        requires right { FrontRight (doc_modes set.now) plans.old.items }
        requires fits { FitsLine (meaning item.now) }

        ensures stage { OnOk result (IsStage set.now plans.new.items self.new) }
        ensures right { OnOk result (FrontRight (doc_modes set.now) plans.new.items) }
        ensures goes { OnOk result ((rest : Items) →
            document_due set.now plans.old.items self.old (line_at line (meaning item.now) rest)
            ≡ document_due set.now plans.new.items self.new (behind_line line rest)) }
        ensures err { IfErr result (λ e. (rest : Items) → Refutes set.now e
            (document_due set.now plans.old.items self.old
            (line_at line (meaning item.now) rest))) }
    {
        if let Some(next) = self.next(alloc, set, plans, line, item)? {
            *self = next;
        }
        Ok(())
    }

    /// Whether no line is due any more.
    pub(crate) fn is_end(&self) -> bool
        ensures yes { IsTrue result → self.now ≡ Stage.Nothing }
        ensures no { self.now ≡ Stage.Nothing → IsTrue result }
    {
        match self {
            Stage::Nothing => true,
            Stage::Head | Stage::Mode | Stage::Within(_) => false,
        }
    }
}

//! What stands inside a mode: trees for one number of rounds after the other, and then a schedule or none.

ghost use Rattle.std.specs.Prelude.{◌≡◌, ℕ, ◌+◌, ◌<◌, ◌≤◌, length, IfOk, IfErr};
ghost use Rattle.app_graph.specs.Validation.{KeepsRules};
ghost use Rattle.sched_model.specs.PlainMode.{most_rounds, plain_at};
ghost use Rattle.proof_tree.specs.Accepting.{DocMode};
ghost use Rattle.proof_tree.specs.PlanLines.{meaning};
ghost use Rattle.proof_tree.specs.Reading.{Place, schedule, tree};
ghost use Rattle.proof_tree.specs.TreeLines.{Items};
ghost use Rattle.cert_checker.specs.DraftReading.{InHand, doc_at, draft_due};
ghost use Rattle.cert_checker.specs.ModeReading.{Follows, IsInside, IsLeft, count_due, inside_due, now_due};
ghost use Rattle.cert_checker.specs.Refusals.{Fails, FitsLine};
ghost use Rattle.cert_checker.specs.TreeStack.{IsWalk, behind_line, line_at, walk_due};

use crate::draft::Draft;
use crate::entries::starts_of;
use crate::refused::Refused;
use crate::walk::Walk;
use app_graph::ModeSet;
use constraint_set::Problem;
use proof_tree::PlanLine;
use sched_model::{Schedule, apps_of, most_rounds};
use std::alloc::Global;

/// What is due inside a mode.
#[derive(Drop)]
pub(crate) enum Inside<'a> {
    /// A tree or a schedule for this number of rounds, or that there is none.
    Count(u64),
    /// A node of a tree.
    Node(Walk),
    /// The starts of a schedule of so many rounds.
    Starts(u64),
    /// Another line of a schedule.
    Rest(Draft<'a>),
}

/// What comes after a line inside a mode.
#[derive(Drop)]
pub(crate) enum Next<'a> {
    /// The tree or the schedule that the line belongs to goes on.
    More,
    /// This is due next.
    Due(Inside<'a>),
    /// The mode is done, with this schedule or none.
    Plan(Option<Schedule>),
}

/// Begins a schedule, of which the starts were read.
fn after_starts<'a>(alloc: Global, mut draft: Draft<'a>) -> Next<'a>
    ensures { (o line : ℕ) (d : DocMode) → InHand d draft.entry →
        Follows o d line (λ rest. draft_due d draft.entry (behind_line line rest)) result }
{
    if draft.is_whole() {
        return Next::Plan(Some(draft.finish(alloc)));
    }
    Next::Due(Inside::Rest(draft))
}

/// Takes a line of a schedule, of which the starts were read.
fn take_rest<'a>(
    alloc: Global,
    set: &ModeSet,
    mode: u32,
    draft: &mut Draft<'a>,
    line: u64,
    item: &PlanLine<'_>,
) -> Result<Next<'a>, Refused>
    requires mode { mode < length set.now.modes }
    requires hand { InHand (doc_at set.now mode) draft.old }
    requires left { IsLeft draft.old }
    requires fits { FitsLine (meaning item.now) }

    ensures ok { IfOk result (λ next. Follows mode (doc_at set.now mode) line
        (λ rest. draft_due (doc_at set.now mode) draft.old (line_at line (meaning item.now) rest))
        (now_due (Inside.Rest draft.new) next)) }
    ensures err { IfErr result (λ e. (rest : Items) → Fails e
        (draft_due (doc_at set.now mode) draft.old (line_at line (meaning item.now) rest))) }
{
    draft.take(alloc, set, mode, line, item)?;
    if draft.is_whole() {
        return Ok(Next::Plan(Some(draft.finish(alloc))));
    }
    Ok(Next::More)
}

/// Takes the line with the starts of a schedule of so many rounds.
fn take_starts<'a>(
    alloc: Global,
    set: &'a ModeSet,
    mode: u32,
    rounds: u64,
    line: u64,
    item: &PlanLine<'_>,
) -> Result<Next<'a>, Refused>
    requires rules { KeepsRules set.now }
    requires mode { mode < length set.now.modes }
    requires some { 1 ≤ rounds }
    ensures ok { IfOk result (λ next. Follows mode (doc_at set.now mode) line (λ rest. schedule (doc_at set.now mode) rounds (line_at line (meaning item.now) rest)) next) }
    ensures err { IfErr result (λ e. (rest : Items) → Fails e (schedule (doc_at set.now mode) rounds (line_at line (meaning item.now) rest))) }
{
    let starts = starts_of(alloc, rounds, line, item)?;
    let draft = Draft::begin(alloc, apps_of(set, mode), starts)?;
    Ok(after_starts(alloc, draft))
}

/// Takes the line of a node in a tree.
fn take_node<'a>(
    walk: &mut Walk,
    mode: u32,
    line: u64,
    item: &PlanLine<'_>,
) -> Result<Next<'a>, Refused>
    requires kept { IsWalk walk.old }
    requires fits { FitsLine (meaning item.now) }

    ensures ok { IfOk result (λ next. (d : DocMode) → IsInside d (Inside.Node walk.old) →
        Follows mode d line
        (λ rest. inside_due mode d (Inside.Node walk.old) (line_at line (meaning item.now) rest))
        (now_due (Inside.Node walk.new) next)) }
    ensures err { IfErr result (λ e. (d : DocMode) (rest : Items) → Fails e
        (inside_due mode d (Inside.Node walk.old) (line_at line (meaning item.now) rest))) }
{
    let rounds = walk.rounds();
    if walk.take(mode, line, item)? {
        return Ok(Next::More);
    }
    Ok(Next::Due(Inside::Count(rounds + 1)))
}

/// The walk through a tree for so many rounds, where a hyperperiod has room for them.
fn begin_tree(alloc: Global, set: &ModeSet, mode: u32, rounds: u64) -> Result<Walk, Refused>
    requires rules { KeepsRules set.now }
    requires mode { mode < length set.now.modes }
    requires some { 1 ≤ rounds }
    requires most { rounds ≤ most_rounds (plain_at set.now mode) }
    ensures inside { IfOk result (λ w. IsInside (doc_at set.now mode) (Inside.Node w)) }
    ensures due { IfOk result (λ w. (o : ℕ) (at : Place) → walk_due o w at ≡ tree o (plain_at set.now mode) rounds at) }
    ensures rounds { IfOk result (λ w. w.problem.rounds ≡ rounds) }
    ensures err { IfErr result (λ e. e ≡ Refused.Memory) }
{
    let problem = Problem::make(alloc, set, mode, rounds)?;
    let walk = Walk::begin(alloc, problem)?;
    Ok(walk)
}

/// Takes the line where this number of rounds is due.
fn take_count<'a>(
    alloc: Global,
    set: &ModeSet,
    mode: u32,
    rounds: u64,
    line: u64,
    item: &PlanLine<'_>,
) -> Result<Next<'a>, Refused>
    requires rules { KeepsRules set.now }
    requires mode { mode < length set.now.modes }
    requires count { IsInside (doc_at set.now mode) (Inside.Count rounds) }
    ensures ok { IfOk result (λ next. Follows mode (doc_at set.now mode) line (λ rest. count_due mode (doc_at set.now mode) rounds (line_at line (meaning item.now) rest)) next) }
    ensures err { IfErr result (λ e. (rest : Items) → Fails e (count_due mode (doc_at set.now mode) rounds (line_at line (meaning item.now) rest))) }
{
    match item {
        PlanLine::Schedule(number) => {
            if *number != rounds {
                return Err(Refused::MissingCount(mode, rounds));
            }
            Ok(Next::Due(Inside::Starts(rounds)))
        }
        PlanLine::Refute(number) => {
            if *number != rounds {
                return Err(Refused::MissingCount(mode, rounds));
            }
            if rounds > most_rounds(set, mode) {
                return Err(Refused::Extra(line));
            }
            let walk = begin_tree(alloc, set, mode, rounds)?;
            Ok(Next::Due(Inside::Node(walk)))
        }
        PlanLine::Absent => {
            if rounds <= most_rounds(set, mode) {
                return Err(Refused::MissingCount(mode, rounds));
            }
            Ok(Next::Plan(None))
        }
        PlanLine::Branch | PlanLine::Short | PlanLine::Full(_) | PlanLine::Cycle(_) => {
            if rounds > 1 {
                return Err(Refused::Extra(line));
            }
            Err(Refused::Grammar(line))
        }
        PlanLine::Head
        | PlanLine::Mode(_)
        | PlanLine::Start(_)
        | PlanLine::Task(_, _)
        | PlanLine::Message(_, _, _)
        | PlanLine::Table(_, _)
        | PlanLine::End => Err(Refused::Grammar(line)),
    }
}

impl<'a> Inside<'a> {
    /// Takes a line inside the mode of this number.
    pub(crate) fn take(
        &mut self,
        alloc: Global,
        set: &'a ModeSet,
        mode: u32,
        line: u64,
        item: &PlanLine<'_>,
    ) -> Result<Next<'a>, Refused>
        requires rules { KeepsRules set.now }
        requires mode { mode < length set.now.modes }
        requires inside { IsInside (doc_at set.now mode) self.old }
        requires fits { FitsLine (meaning item.now) }

        ensures ok { IfOk result (λ next. Follows mode (doc_at set.now mode) line
            (λ rest. inside_due mode (doc_at set.now mode) self.old
            (line_at line (meaning item.now) rest))
            (now_due self.new next)) }
        ensures err { IfErr result (λ e. (rest : Items) → Fails e (inside_due mode
            (doc_at set.now mode) self.old (line_at line (meaning item.now) rest))) }
    {
        match self {
            Inside::Count(rounds) => take_count(alloc, set, mode, *rounds, line, item),
            Inside::Node(walk) => take_node(walk, mode, line, item),
            Inside::Starts(rounds) => take_starts(alloc, set, mode, *rounds, line, item),
            Inside::Rest(draft) => take_rest(alloc, set, mode, draft, line, item),
        }
    }
}

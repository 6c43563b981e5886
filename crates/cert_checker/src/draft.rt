//! A schedule, read line by line.

ghost use Rattle.std.specs.Prelude.{◌≡◌, ◌+◌, ◌<◌, ◌≤◌, ◌↔◌, ◌∷◌, [], ◌++◌, Some, Ok, false, ◌⊎◌, length, map, IfOk, IfErr, OnOk, IsTrue};
ghost use Rattle.proof_tree.specs.Accepting.{DocMode};
ghost use Rattle.proof_tree.specs.Names.{messages_in, tasks_in};
ghost use Rattle.proof_tree.specs.PlanLines.{meaning};
ghost use Rattle.proof_tree.specs.TreeLines.{Items};
ghost use Rattle.cert_checker.specs.DraftReading.{InHand, IsWhole, doc_at, draft_due};
ghost use Rattle.cert_checker.specs.Refusals.{Fails, FitsLine};
ghost use Rattle.cert_checker.specs.TreeStack.{behind_line, line_at};

use crate::entries::{message_of, table_of, task_of};
use crate::names::{NameList, message_names, task_names};
use crate::refused::Refused;
use app_graph::{App, ListOf, ModeSet};
use proof_tree::PlanLine;
use sched_model::Schedule;
use std::alloc::{AllocError, Global};
use std::mem;
use tick_num::Time;

/// The parts of a schedule that were read, and the names that are due in it.
#[derive(Drop)]
pub(crate) struct Draft<'a> {
    /// The names of the mode's tasks, in file order.
    pub(crate) task_names: NameList<'a>,
    /// The names of its messages.
    pub(crate) message_names: NameList<'a>,
    /// The start of each round.
    pub(crate) starts: Vec<Time>,
    /// The start of each task's first run.
    pub(crate) tasks: Vec<Time>,
    /// Where the first window of each message opens and where it closes.
    pub(crate) messages: Vec<(Time, Time)>,
    /// The numbers of each round's messages.
    pub(crate) tables: Vec<ListOf<u32>>,
}

impl<'a> Draft<'a> {
    /// The draft of a schedule of these applications, of which the starts were read.
    pub(crate) fn begin(
        alloc: Global,
        apps: &'a [App],
        starts: Vec<Time>,
    ) -> Result<Draft<'a>, AllocError>
        ensures tasks_due { IfOk result (λ s. s.task_names ≡ map (λ task. task.name) (tasks_in apps.now)) }
        ensures messages_due { IfOk result (λ s. s.message_names ≡ map (λ message. message.name) (messages_in apps.now)) }
        ensures starts { IfOk result (λ s. s.starts.items ≡ starts.items) }
        ensures tasks { IfOk result (λ s. s.tasks.items ≡ []) }
        ensures messages { IfOk result (λ s. s.messages.items ≡ []) }
        ensures tables { IfOk result (λ s. s.tables.items ≡ []) }
    {
        Ok(Draft {
            task_names: task_names(alloc, apps)?,
            message_names: message_names(alloc, apps)?,
            starts,
            tasks: Vec::new(alloc),
            messages: Vec::new(alloc),
            tables: Vec::new(alloc),
        })
    }

    /// Takes the line of the next task.
    fn take_task(&mut self, line: u64, item: &PlanLine<'_>) -> Result<(), Refused>
        requires more { length self.old.tasks.items < length self.old.task_names }
        requires fits { FitsLine (meaning item.now) }
        ensures kept { OnOk result ((d : DocMode) → InHand d self.old → InHand d self.new) }
        ensures goes { OnOk result ((d : DocMode) (rest : Items) → InHand d self.old → draft_due d self.old (line_at line (meaning item.now) rest) ≡ draft_due d self.new (behind_line line rest)) }
        ensures err { IfErr result (λ e. (d : DocMode) (rest : Items) → InHand d self.old → Fails e (draft_due d self.old (line_at line (meaning item.now) rest))) }
    {
        let name = self.task_names.at(self.tasks.len());
        let offset = task_of(name, line, item)?;
        self.tasks.push(offset as i64)?;
        Ok(())
    }

    /// Takes the line of the next message.
    fn take_message(&mut self, line: u64, item: &PlanLine<'_>) -> Result<(), Refused>
        requires tasks { length self.old.tasks.items ≡ length self.old.task_names }
        requires more { length self.old.messages.items < length self.old.message_names }
        requires fits { FitsLine (meaning item.now) }
        ensures kept { OnOk result ((d : DocMode) → InHand d self.old → InHand d self.new) }
        ensures goes { OnOk result ((d : DocMode) (rest : Items) → InHand d self.old → draft_due d self.old (line_at line (meaning item.now) rest) ≡ draft_due d self.new (behind_line line rest)) }
        ensures err { IfErr result (λ e. (d : DocMode) (rest : Items) → InHand d self.old → Fails e (draft_due d self.old (line_at line (meaning item.now) rest))) }
    {
        let name = self.message_names.at(self.messages.len());
        let window = message_of(name, line, item)?;
        self.messages.push((window.0 as i64, window.1 as i64))?;
        Ok(())
    }

    /// Takes the line of the next round's table.
    fn take_table(
        &mut self,
        alloc: Global,
        set: &ModeSet,
        mode: u32,
        line: u64,
        item: &PlanLine<'_>,
    ) -> Result<(), Refused>
        requires mode { mode < length set.now.modes }
        requires tasks { length self.old.tasks.items ≡ length self.old.task_names }
        requires messages { length self.old.messages.items ≡ length self.old.message_names }
        requires more { length self.old.tables.items < length self.old.starts.items }
        ensures kept { OnOk result (InHand (doc_at set.now mode) self.old → InHand (doc_at set.now mode) self.new) }
        ensures goes { OnOk result ((rest : Items) → InHand (doc_at set.now mode) self.old → draft_due (doc_at set.now mode) self.old (line_at line (meaning item.now) rest) ≡ draft_due (doc_at set.now mode) self.new (behind_line line rest)) }
        ensures err { IfErr result (λ e. (rest : Items) → InHand (doc_at set.now mode) self.old → Fails e (draft_due (doc_at set.now mode) self.old (line_at line (meaning item.now) rest))) }
    {
        let round = self.tables.len() as u64 + 1;
        let numbers = table_of(alloc, set, mode, round, line, item)?;
        self.tables.push(ListOf::from_vec(numbers))?;
        Ok(())
    }

    /// Whether all lines of the schedule were read.
    pub(crate) fn is_whole(&self) -> bool
        ensures yes { IsTrue result → ((d : DocMode) → InHand d self.now → IsWhole d self.now) }
        ensures no { (result ≡ false) → ((length self.now.tasks.items < length self.now.task_names) ⊎ (length self.now.messages.items < length self.now.message_names) ⊎ (length self.now.tables.items < length self.now.starts.items)) }
    {
        if self.tasks.len() < self.task_names.len() {
            return false;
        }
        if self.messages.len() < self.message_names.len() {
            return false;
        }
        self.tables.len() >= self.starts.len()
    }

    /// Takes the line that is due next in a schedule of the mode, of which some lines are left.
    pub(crate) fn take(
        &mut self,
        alloc: Global,
        set: &ModeSet,
        mode: u32,
        line: u64,
        item: &PlanLine<'_>,
    ) -> Result<(), Refused>
        requires mode { mode < length set.now.modes }
        requires hand { InHand (doc_at set.now mode) self.old }
        requires left { (length self.old.tasks.items < length self.old.task_names) ⊎ (length self.old.messages.items < length self.old.message_names) ⊎ (length self.old.tables.items < length self.old.starts.items) }
        requires fits { FitsLine (meaning item.now) }
        ensures kept { OnOk result (InHand (doc_at set.now mode) self.new) }
        ensures goes { OnOk result ((rest : Items) → draft_due (doc_at set.now mode) self.old (line_at line (meaning item.now) rest) ≡ draft_due (doc_at set.now mode) self.new (behind_line line rest)) }
        ensures err { IfErr result (λ e. (rest : Items) → Fails e (draft_due (doc_at set.now mode) self.old (line_at line (meaning item.now) rest))) }
    {
        if self.tasks.len() < self.task_names.len() {
            return self.take_task(line, item);
        }
        if self.messages.len() < self.message_names.len() {
            return self.take_message(line, item);
        }
        self.take_table(alloc, set, mode, line, item)
    }

    /// Hands out the schedule that was read.
    pub(crate) fn finish(&mut self, alloc: Global) -> Schedule
        ensures starts { result.starts ≡ self.old.starts.items }
        ensures tasks { result.tasks ≡ self.old.tasks.items }
        ensures messages { result.messages ≡ self.old.messages.items }
        ensures tables { result.tables ≡ self.old.tables.items }
    {
        Schedule {
            starts: ListOf::from_vec(mem::replace(&mut self.starts, Vec::new(alloc))),
            tasks: ListOf::from_vec(mem::replace(&mut self.tasks, Vec::new(alloc))),
            messages: ListOf::from_vec(mem::replace(&mut self.messages, Vec::new(alloc))),
            tables: ListOf::from_vec(mem::replace(&mut self.tables, Vec::new(alloc))),
        }
    }
}

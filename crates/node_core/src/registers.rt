//! The registers of a node, and its run in progress.

ghost use Rattle.std.specs.Prelude.{◌≡◌, ◌+◌, ◌<◌, ◌≤◌, ◌++◌, [], All, IfOk, None, cond, false, Option, Some, drop, fold, is_some, length, replicate, slice_index_or, slice_set};
ghost use Rattle.std.specs.List.{AllPairs, list_all};
ghost use Rattle.std.specs.Option.{option_copied};
ghost use Rattle.sched_model.specs.Numbers.{below};
ghost use Rattle.runtime_model.specs.Inputs.{given};
ghost use Rattle.node_core.specs.Fits.{IsBefore, MessageFits};
ghost use Rattle.node_core.specs.Registers.{all_full, emptied_for, ended_with, filled, inputs_from, inputs_of, no_ins, no_outs, no_registers, out_of, value_at_end, values_of};
ghost use Rattle.node_core.specs.Rules.{packet_from, takes_copy};

use crate::lookup::{consumer_place, sends};
use crate::packet::{Inputs, Packet, Values};
use arrayvec::ArrayVec;
use node_tables::OwnMessage;
use std::alloc::{AllocError, Global};
use std::marker::Model;

/// How many tasks there are at most; they are numbered from 0.
const TASKS: usize = 1024;

/// How many messages there are at most; they are numbered from 0.
const MESSAGES: usize = 512;

/// The run in progress of a node.
#[derive(Clone, Copy, Drop)]
pub struct Run {
    /// The number of its task.
    pub task: u32,
    /// What its end will answer.
    pub value: i64,
}

/// The in registers of a message, one for each of its consumers on the node.
/// All that are full have the values of the last packet.
#[derive(Drop)]
pub(crate) struct InRow {
    values: Values,
    full: ArrayVec<bool, 16>,
}

impl Model for InRow {
    ghost use Rattle.std.specs.Prelude.{List, None, Option, Some, cond, map, ℤ};

    ghost Value = { List (Option (List ℤ)) };

    ghost view = { λ r. map (λ f. cond f (Some r.values) None) r.full.items };
}

impl InRow {
    /// Empty registers.
    fn new() -> Self
        ensures { result ≡ [] }
    {
        InRow {
            values: Values::new(),
            full: ArrayVec::new(),
        }
    }

    /// Empties all.
    fn empty(&mut self)
        ensures { self.new ≡ [] }
    {
        self.full.clear();
    }

    /// Fills the registers of so many consumers with the values of a packet.
    fn fill(&mut self, count: usize, values: &Values)
        requires { count ≤ 16 }
        ensures { self.new ≡ replicate count (Some values.now) }
    {
        self.values.copy_from(values);
        self.full.clear();
        for _ in 0..count {
            self.full.push(true);
        }
    }

    /// The values of the register at a place, where it is full.
    fn get(&self, place: usize) -> Option<&[i64]>
        ensures { option_copied result ≡ slice_index_or self.now place None }
    {
        match self.full.as_slice().get(place) {
            Some(true) => Some(self.values.as_slice()),
            Some(false) | None => None,
        }
    }

    /// Whether the registers of the first consumers, as many as these, are full.
    fn is_full(&self, count: usize) -> bool
        ensures { result ≡ list_all (λ c. is_some (slice_index_or self.now c None)) (below count) }
    {
        for place in 0..count {
            if self.get(place).is_none() {
                return false;
            }
        }
        true
    }

    /// Adds the values of the register at a place, or so many absent ones, at the end of other inputs.
    fn read(&self, place: usize, count: usize, inputs: &mut Inputs)
        requires { length inputs.old + length (given count (slice_index_or self.now place None)) ≤ 64 }
        ensures { inputs.new ≡ inputs.old ++ given count (slice_index_or self.now place None) }
    {
        match self.get(place) {
            Some(values) => inputs.push_values(values),
            None => inputs.push_absent(count),
        }
    }

    /// Takes the register at a place: its values, or so many absent ones, go to the end of other inputs, and it is empty.
    fn take(&mut self, place: usize, count: usize, inputs: &mut Inputs)
        requires { length inputs.old + length (given count (slice_index_or self.old place None)) ≤ 64 }
        ensures inputs { inputs.new ≡ inputs.old ++ given count (slice_index_or self.old place None) }
        ensures emptied { self.new ≡ slice_set self.old place None }
    {
        self.read(place, count, inputs);
        clear_at(&mut self.full, place);
    }
}

/// Makes the flag at a place false, where there is one.
fn clear_at(flags: &mut ArrayVec<bool, 16>, place: usize)
    ensures { flags.new.items ≡ slice_set flags.old.items place false }
{
    if let Some(flag) = flags.get_mut(place) {
        *flag = false;
    }
}

/// The out registers of all tasks, by their numbers. Contracts see the list of them.
#[derive(Drop)]
struct OutList {
    slots: Vec<Option<i64>>,
    // The registers from this number on are empty.
    used: usize,
}

impl Model for OutList {
    ghost use Rattle.std.specs.Prelude.{◌≡◌, ◌≤◌, ◌-◌, List, None, Option, drop, length, replicate, ℤ};

    ghost Value = { List (Option ℤ) };

    ghost view = { λ l. l.slots.items };

    ghost invariant = { λ l. (length l.slots.items ≡ 1024) × (l.used ≤ 1024)
        × (drop l.used l.slots.items ≡ replicate (1024 - l.used) None) };
}

impl OutList {
    /// Empty registers, with all their memory.
    fn make(alloc: Global) -> Result<Self, AllocError>
        ensures { IfOk result (λ l. l ≡ no_outs) }
    {
        Ok(OutList {
            slots: no_outs(alloc)?,
            used: 0,
        })
    }

    /// The register of a task.
    fn get(&self, task: u32) -> Option<i64>
        requires { task < 1024 }
        ensures { result ≡ slice_index_or self.now task None }
    {
        self.slots[task as usize]
    }

    /// Fills the register of a task.
    fn set(&mut self, task: u32, value: i64)
        requires { task < 1024 }
        ensures { self.new ≡ slice_set self.old task (Some value) }
    {
        self.slots[task as usize] = Some(value);
        self.used = used_with(self.used, task as usize);
    }

    /// Empties all: those that are past the last used one are empty already.
    fn empty(&mut self)
        ensures { self.new ≡ no_outs }
    {
        empty_outs(&mut self.slots, self.used);
        self.used = 0;
    }
}

/// The registers of a node. Contracts see them by the numbers of tasks and messages.
#[derive(Drop)]
pub(crate) struct Registers {
    outs: OutList,
    ins: Vec<InRow>,
    run: Option<Run>,
}

impl Model for Registers {
    ghost use Rattle.std.specs.Prelude.{◌≡◌, length};
    ghost use Rattle.node_core.specs.Registers.{RegistersSeen};

    ghost Value = { RegistersSeen };

    ghost view = { λ n. record { outs = n.outs; ins = n.ins.items; run = n.run } };

    ghost invariant = { λ n. (length n.outs ≡ 1024) × (length n.ins.items ≡ 512) };
}

impl Registers {
    /// Empty registers, with all the memory that they will need.
    pub(crate) fn make(alloc: Global) -> Result<Self, AllocError>
        ensures { IfOk result (λ g. g ≡ no_registers) }
    {
        Ok(Registers {
            outs: OutList::make(alloc)?,
            ins: no_rows(alloc)?,
            run: None,
        })
    }

    /// Empties all registers, and ends the run in progress.
    pub(crate) fn empty(&mut self)
        ensures { self.new ≡ no_registers }
    {
        self.outs.empty();
        empty_rows(&mut self.ins);
        self.run = None;
    }

    /// The out register of a task.
    fn out(&self, task: u32) -> Option<i64>
        requires { task < 1024 }
        ensures { result ≡ out_of self.now task }
    {
        self.outs.get(task)
    }

    /// The values of the out registers of these tasks, where all are full.
    pub(crate) fn values_of(&self, tasks: &[u32]) -> Option<Values>
        requires few { length tasks.now ≤ 4 }
        requires known { All (λ a. a < 1024) tasks.now }
        ensures { result ≡ values_of self.now tasks.now }
    {
        let mut values = Values::new();
        for task in tasks {
            match self.out(*task) {
                Some(value) => values.push(value),
                None => return None,
            }
        }
        Some(values)
    }

    /// The packet of a message, where the node sends it and the out registers of its producers are full.
    pub(crate) fn packet_of(&self, message: &OwnMessage) -> Option<Packet>
        requires { MessageFits message.now }
        ensures { result ≡ packet_from self.now (Some message.now) }
    {
        if !sends(message) {
            return None;
        }
        match self.values_of(message.producers.as_slice()) {
            Some(values) => Some(Packet {
                message: message.number,
                values,
            }),
            None => None,
        }
    }

    /// Whether the in registers of all consumers of a message are full.
    pub(crate) fn is_full(&self, message: &OwnMessage) -> bool
        requires { message.now.number < 512 }
        ensures { result ≡ all_full self.now.ins message.now }
    {
        self.ins[message.number as usize].is_full(message.consumers.as_slice().len())
    }

    /// Fills the in registers of the consumers of a message.
    fn fill(&mut self, message: &OwnMessage, values: &Values)
        requires number { message.now.number < 512 }
        requires few { length message.now.consumers ≤ 16 }
        ensures { self.new ≡ filled message.now values.now self.old }
    {
        let count = message.consumers.as_slice().len();
        let row = &mut self.ins[message.number as usize];
        row.fill(count, values);
    }

    /// Takes the values of a packet with this copy of a message, where a task of the node consumes it. A copy after
    /// the first one is passed over where the in registers of all consumers are full.
    pub(crate) fn receive(&mut self, message: &OwnMessage, copy: u8, values: &Values) -> bool
        requires number { message.now.number < 512 }
        requires few { length message.now.consumers ≤ 16 }

        ensures taken { result ≡ takes_copy self.old copy message.now }
        ensures registers { self.new
            ≡ cond (takes_copy self.old copy message.now) (filled message.now values.now self.old) self.old }
    {
        if message.consumers.as_slice().is_empty() {
            return false;
        }
        if copy > 1 && self.is_full(message) {
            return false;
        }
        self.fill(message, values);
        true
    }

    /// Takes the in register of a task for a message: its inputs go to the end of others, and it is empty.
    fn take_input(&mut self, message: &OwnMessage, task: u32, inputs: &mut Inputs)
        requires number { message.now.number < 512 }
        requires room { length inputs.old + length (inputs_from self.old.ins task message.now) ≤ 64 }
        ensures inputs { inputs.new ≡ inputs.old ++ inputs_from self.old.ins task message.now }
        ensures emptied { self.new ≡ record self.old { ins = emptied_for task self.old.ins message.now } }
    {
        let Some(place) = consumer_place(message, task) else {
            return;
        };
        let row = &mut self.ins[message.number as usize];
        row.take(place, message.producers.as_slice().len(), inputs);
    }

    /// Takes the in registers of a task, by the messages of its mode: the inputs of a run.
    pub(crate) fn take_inputs(&mut self, messages: &[OwnMessage], task: u32, inputs: &mut Inputs)
        requires numbers { All MessageFits messages.now }
        requires ascending { AllPairs IsBefore messages.now }
        requires room { length (inputs_of self.old.ins task messages.now) ≤ 64 }
        ensures inputs { inputs.new ≡ inputs_of self.old.ins task messages.now }
        ensures emptied { self.new ≡ record self.old { ins = fold (emptied_for task) self.old.ins messages.now } }
    {
        inputs.clear();
        for message in messages {
            self.take_input(message, task, inputs);
        }
    }

    /// Begins a run of a task, whose end will answer this value.
    pub(crate) fn begin(&mut self, task: u32, value: i64)
        ensures { self.new ≡ record self.old { run = Some (record { task = task; value = value }) } }
    {
        self.run = Some(Run { task, value });
    }

    /// Ends the run of a task, where it is in progress: its value goes to the task's out register.
    pub(crate) fn end(&mut self, task: u32) -> Option<i64>
        requires { task < 1024 }
        ensures state { self.new ≡ ended_with task (value_at_end task self.old.run) self.old }
        ensures value { result ≡ value_at_end task self.old.run }
    {
        match self.run {
            Some(run) if run.task == task => {
                self.outs.set(task, run.value);
                self.run = None;
                Some(run.value)
            }
            _ => None,
        }
    }
}

/// Empty out registers for every task number.
fn no_outs(alloc: Global) -> Result<Vec<Option<i64>>, AllocError>
    ensures { IfOk result (λ outs. outs.items ≡ no_outs) }
{
    let mut outs = Vec::with_capacity(alloc, TASKS)?;
    for _ in 0..TASKS {
        outs.push(None)?;
    }
    Ok(outs)
}

/// Empty in registers for every message number.
fn no_rows(alloc: Global) -> Result<Vec<InRow>, AllocError>
    ensures { IfOk result (λ rows. rows.items ≡ no_ins) }
{
    let mut rows = Vec::with_capacity(alloc, MESSAGES)?;
    for _ in 0..MESSAGES {
        rows.push(InRow::new())?;
    }
    Ok(rows)
}

/// How many registers are used at most, with that of this task.
fn used_with(used: usize, task: usize) -> usize
    requires used { used ≤ 1024 }
    requires task { task < 1024 }
    ensures kept { used ≤ result }
    ensures task { task < result }
    ensures most { result ≤ 1024 }
{
    used.max(task + 1)
}

/// Empties the first out registers, as many as are used.
fn empty_outs(outs: &mut [Option<i64>], used: usize)
    requires { used ≤ length outs.old }
    ensures { outs.new ≡ replicate used None ++ drop used outs.old }
{
    outs[..used].fill(None);
}

/// Empties the in registers.
fn empty_rows(rows: &mut [InRow])
    ensures { rows.new ≡ replicate (length rows.old) [] }
{
    for row in rows {
        row.empty();
    }
}

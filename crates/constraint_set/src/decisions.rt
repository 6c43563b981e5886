//! The decisions of a mode: the copies of its messages, then its pairs of tasks on one node, in file order.

ghost use Rattle.std.specs.Prelude.{◌≡◌, [], ◌∷◌, ◌++◌, ◌+◌, ◌<◌, ◌≤◌, IfOk, length, map, slice_index_or};
ghost use Rattle.std.specs.List.{flat_map};
ghost use Rattle.sched_model.specs.Numbers.{below};
ghost use Rattle.sched_model.specs.PlainMode.{hyper, message_at};
ghost use Rattle.sched_model.specs.ConstraintProblem.{decisions, order, ordered, orders, serve, serves};
ghost use Rattle.sched_model.specs.ModeLimits.{IsLimited};
ghost use Rattle.sched_model.specs.ValidMode.{IsValid};
ghost use Rattle.constraint_set.specs.Decided.{decision_of};

use crate::frame::Frame;
use std::alloc::{AllocError, Global};
use std::marker::Model;

/// What is to be decided. Messages and tasks go by their places in the mode.
#[derive(Clone, Copy, Drop)]
pub(crate) enum Choice {
    /// The round instance that carries a copy of a message, counted over its windows.
    Serve(u32, u64),
    /// The place of the second task's runs between those of the first.
    Order(u32, u32),
}

/// A list of decisions.
#[derive(Drop)]
pub(crate) struct Decisions {
    choices: Vec<Choice>,
}

impl Model for Decisions {
    ghost use Rattle.std.specs.Prelude.{List, map};
    ghost use Rattle.sched_model.specs.ConstraintProblem.{Decision};

    ghost Value = { List Decision };

    ghost use Rattle.constraint_set.specs.Decided.{decision_of};

    ghost view = { λ d. map decision_of d.choices.items };
}

impl Decisions {
    fn new(alloc: Global) -> Self
        ensures { result ≡ [] }
    {
        Decisions {
            choices: Vec::new(alloc),
        }
    }

    /// Adds one.
    fn push(&mut self, choice: Choice) -> Result<(), AllocError>
        ensures { IfOk result (λ _. self.new ≡ self.old ++ decision_of choice ∷ []) }
    {
        self.choices.push(choice)?;
        Ok(())
    }

    /// How many there are.
    pub(crate) fn len(&self) -> usize
        ensures { result ≡ length self.now }
    {
        self.choices.len()
    }

    /// The decision at the place.
    pub(crate) fn at(&self, place: usize) -> Choice
        requires { place < length self.now }
        ensures { decision_of result ≡ slice_index_or self.now place (order 0 0) }
    {
        self.choices[place]
    }
}

/// Adds the copies of a message.
fn add_serves(list: &mut Decisions, message: u32, copies: u64) -> Result<(), AllocError>
    ensures { IfOk result (λ _. list.new ≡ list.old ++ map (serve message) (below copies)) }
{
    for copy in 0..copies {
        list.push(Choice::Serve(message, copy))?;
    }
    Ok(())
}

/// Adds the copies of the message at the place.
fn add_message(list: &mut Decisions, frame: &Frame, message: u32) -> Result<(), AllocError>
    requires message { message < length frame.now.messages }
    ensures { IfOk result (λ _. list.new ≡ list.old ++ serves frame.now message) }
{
    let count = frame.copies_of(message);
    add_serves(list, message, count)?;
    Ok(())
}

/// Adds the copies of the messages.
fn add_messages(list: &mut Decisions, frame: &Frame) -> Result<(), AllocError>
    ensures { IfOk result (λ _. list.new
        ≡ list.old ++ flat_map (serves frame.now) (below (length frame.now.messages))) }
{
    for message in 0..frame.message_count() {
        add_message(list, frame, message)?;
    }
    Ok(())
}

/// Adds the pair of the tasks, where the first stands before the second on one node.
fn add_pair(list: &mut Decisions, frame: &Frame, first: u32, second: u32) -> Result<(), AllocError>
    requires first { first < length frame.now.tasks }
    requires second { second < length frame.now.tasks }

    ensures { IfOk result (λ _. list.new ≡ list.old ++ ordered frame.now first second) }
{
    if first >= second {
        return Ok(());
    }
    if frame.task(first).node() != frame.task(second).node() {
        return Ok(());
    }
    list.push(Choice::Order(first, second))?;
    Ok(())
}

/// Adds the pairs of a task with the later ones on its node.
fn add_pairs_of(list: &mut Decisions, frame: &Frame, first: u32) -> Result<(), AllocError>
    requires first { first < length frame.now.tasks }
    ensures { IfOk result (λ _. list.new ≡ list.old ++ orders frame.now first) }
{
    for second in 0..frame.task_count() {
        add_pair(list, frame, first, second)?;
    }
    Ok(())
}

/// Adds the pairs of tasks.
fn add_pairs(list: &mut Decisions, frame: &Frame) -> Result<(), AllocError>
    ensures { IfOk result (λ _. list.new
        ≡ list.old ++ flat_map (orders frame.now) (below (length frame.now.tasks))) }
{
    for first in 0..frame.task_count() {
        add_pairs_of(list, frame, first)?;
    }
    Ok(())
}

/// The decisions of the mode.
pub(crate) fn make_decisions(alloc: Global, frame: &Frame) -> Result<Decisions, AllocError>
    ensures { IfOk result (λ d. d ≡ decisions frame.now) }
{
    let mut list = Decisions::new(alloc);
    add_messages(&mut list, frame)?;
    add_pairs(&mut list, frame)?;
    Ok(list)
}

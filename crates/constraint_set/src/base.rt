//! The constraints that always hold: of the rounds, of the tasks, of the messages and of the chains, in this order.

ghost use Rattle.std.specs.Prelude.{◌≡◌, [], ◌∷◌, ◌++◌, ◌-◌, ◌<◌, ◌≤◌, All, IfOk, length, map};
ghost use Rattle.std.specs.List.{flat_map};
ghost use Rattle.sched_model.specs.Numbers.{below};
ghost use Rattle.sched_model.specs.PlainMode.{hyper};
ghost use Rattle.sched_model.specs.ConstraintProblem.{base, closes_var, next_round, of_consumer, of_message, of_producer, of_task, opens_var, turn};
ghost use Rattle.sched_model.specs.ModeLimits.{IsLimited};
ghost use Rattle.sched_model.specs.TaskGraph.{first};
ghost use Rattle.sched_model.specs.ValidMode.{IsValid};
ghost use Rattle.constraint_set.specs.Posed.{behind, chains_of};

use crate::bounds::{at_least, at_most, at_most_less};
use crate::frame::{Frame, Rounds};
use std::alloc::{AllocError, Global};
use tick_num::Diff;

/// Adds one constraint.
fn add_one(list: &mut Vec<Diff>, one: Diff) -> Result<(), AllocError>
    ensures { IfOk result (λ _. list.new.items ≡ list.old.items ++ one ∷ []) }
{
    list.push(one)?;
    Ok(())
}

/// Adds two constraints.
fn add_two(list: &mut Vec<Diff>, one: Diff, two: Diff) -> Result<(), AllocError>
    ensures { IfOk result (λ _. list.new.items ≡ list.old.items ++ one ∷ two ∷ []) }
{
    list.push(one)?;
    list.push(two)?;
    Ok(())
}

/// Adds the constraints of the rounds at the places `j` and `j + 1`.
fn add_next_round(list: &mut Vec<Diff>, frame: &Frame, j: u32) -> Result<(), AllocError>
    requires place { j < 256 }
    ensures { IfOk result (λ _. list.new.items ≡ list.old.items ++ next_round frame.now j) }
{
    let after = at_least(j, j + 1, frame.round());
    let within = at_most(j + 1, j, frame.gap());
    add_two(list, after, within)?;
    Ok(())
}

/// Adds the constraints of each two rounds that follow one another.
fn add_rounds(list: &mut Vec<Diff>, frame: &Frame, rounds: Rounds) -> Result<(), AllocError>
    ensures { IfOk result (λ _. list.new.items
        ≡ list.old.items ++ flat_map (next_round frame.now) (below (rounds - 1))) }
{
    for j in 0..rounds.get() - 1 {
        add_next_round(list, frame, j)?;
    }
    Ok(())
}

/// Adds the constraints of the last round and of the first one of the next hyperperiod.
fn add_turn(list: &mut Vec<Diff>, frame: &Frame, rounds: Rounds) -> Result<(), AllocError>
    ensures { IfOk result (λ _. list.new.items ≡ list.old.items ++ turn frame.now rounds) }
{
    let ticks = frame.ticks();
    let last = rounds.get() - 1;
    let end = at_most_less(last, 0, ticks, frame.round());
    let next = at_most_less(0, last, frame.gap(), ticks);
    add_two(list, end, next)?;
    Ok(())
}

/// Adds the constraints of the task's first start.
fn add_task(
    list: &mut Vec<Diff>,
    frame: &Frame,
    rounds: Rounds,
    task: u32,
) -> Result<(), AllocError>
    requires task { task < length frame.now.tasks }
    ensures { IfOk result (λ _. list.new.items ≡ list.old.items ++ of_task frame.now rounds task) }
{
    let start = frame.task_var(rounds, task);
    let after = at_most(0, start, 0);
    if !frame.is_first(task) {
        add_one(list, after)?;
        return Ok(());
    }
    let within = at_most_less(start, 0, frame.task(task).period(), 1);
    add_two(list, after, within)?;
    Ok(())
}

/// Adds the constraints of the tasks' first starts.
fn add_tasks(list: &mut Vec<Diff>, frame: &Frame, rounds: Rounds) -> Result<(), AllocError>
    ensures { IfOk result (λ _. list.new.items
        ≡ list.old.items ++ flat_map (of_task frame.now rounds) (below (length frame.now.tasks))) }
{
    for task in 0..frame.task_count() {
        add_task(list, frame, rounds, task)?;
    }
    Ok(())
}

/// Adds the constraints of a message and one of its producers.
fn add_producer(
    list: &mut Vec<Diff>,
    frame: &Frame,
    rounds: Rounds,
    message: u32,
    producer: u32,
) -> Result<(), AllocError>
    requires message { message < length frame.now.messages }
    requires producer { producer < length frame.now.tasks }

    ensures { IfOk result (λ _. list.new.items
        ≡ list.old.items ++ of_producer frame.now rounds message producer) }
{
    let wcet = frame.task(producer).wcet();
    let period = frame.message(message).period();
    let start = frame.task_var(rounds, producer);
    let after = at_least(start, frame.opens_var(rounds, message), wcet);
    let within = at_most(frame.closes_var(rounds, message), start, wcet + period);
    add_two(list, after, within)?;
    Ok(())
}

/// Adds the constraints of a message and one of its consumers.
fn add_consumer(
    list: &mut Vec<Diff>,
    frame: &Frame,
    rounds: Rounds,
    message: u32,
    consumer: u32,
) -> Result<(), AllocError>
    requires message { message < length frame.now.messages }
    requires consumer { consumer < length frame.now.tasks }

    ensures { IfOk result (λ _. list.new.items
        ≡ list.old.items ++ of_consumer frame.now rounds message consumer) }
{
    let period = frame.message(message).period();
    let start = frame.task_var(rounds, consumer);
    let after = at_most(frame.closes_var(rounds, message), start, 0);
    let within = at_most_less(start, frame.opens_var(rounds, message), period, 1);
    add_two(list, after, within)?;
    Ok(())
}

/// Adds the constraints of a message and its producers.
fn add_producers(
    list: &mut Vec<Diff>,
    frame: &Frame,
    rounds: Rounds,
    message: u32,
    producers: &[u32],
) -> Result<(), AllocError>
    requires message { message < length frame.now.messages }
    requires producers { All (λ a. a < length frame.now.tasks) producers.now }

    ensures { IfOk result (λ _. list.new.items
        ≡ list.old.items ++ flat_map (of_producer frame.now rounds message) producers.now) }
{
    for producer in producers {
        add_producer(list, frame, rounds, message, *producer)?;
    }
    Ok(())
}

/// Adds the constraints of a message and its consumers.
fn add_consumers(
    list: &mut Vec<Diff>,
    frame: &Frame,
    rounds: Rounds,
    message: u32,
    consumers: &[u32],
) -> Result<(), AllocError>
    requires message { message < length frame.now.messages }
    requires consumers { All (λ b. b < length frame.now.tasks) consumers.now }

    ensures { IfOk result (λ _. list.new.items
        ≡ list.old.items ++ flat_map (of_consumer frame.now rounds message) consumers.now) }
{
    for consumer in consumers {
        add_consumer(list, frame, rounds, message, *consumer)?;
    }
    Ok(())
}

/// Adds the constraints of a message.
fn add_message(
    list: &mut Vec<Diff>,
    frame: &Frame,
    rounds: Rounds,
    message: u32,
) -> Result<(), AllocError>
    requires message { message < length frame.now.messages }

    ensures { IfOk result (λ _. list.new.items
        ≡ list.old.items ++ of_message frame.now rounds message) }
{
    let ends = frame.message(message);
    let lasts = at_least(
        frame.opens_var(rounds, message),
        frame.closes_var(rounds, message),
        1,
    );
    add_producers(list, frame, rounds, message, ends.from())?;
    add_one(list, lasts)?;
    add_consumers(list, frame, rounds, message, ends.to())?;
    Ok(())
}

/// Adds the constraints of the messages.
fn add_messages(list: &mut Vec<Diff>, frame: &Frame, rounds: Rounds) -> Result<(), AllocError>
    ensures { IfOk result (λ _. list.new.items ≡ list.old.items
        ++ flat_map (of_message frame.now rounds) (below (length frame.now.messages))) }
{
    for message in 0..frame.message_count() {
        add_message(list, frame, rounds, message)?;
    }
    Ok(())
}

/// Adds the constraint of a chain, in which tasks go by their places.
fn add_chain(list: &mut Vec<Diff>, rounds: Rounds, chain: Diff) -> Result<(), AllocError>
    requires end { chain.x < 128 }
    requires start { chain.y < 128 }

    ensures { IfOk result (λ _. list.new.items ≡ list.old.items ++ behind rounds chain ∷ []) }
{
    add_one(
        list,
        Diff {
            x: rounds.get() + chain.x,
            y: rounds.get() + chain.y,
            c: chain.c,
        },
    )?;
    Ok(())
}

/// Adds the constraints of the chains.
fn add_chains(list: &mut Vec<Diff>, rounds: Rounds, chains: &[Diff]) -> Result<(), AllocError>
    requires { All (λ d. (d.x < 128) × (d.y < 128)) chains.now }
    ensures { IfOk result (λ _. list.new.items ≡ list.old.items ++ map (behind rounds) chains.now) }
{
    for chain in chains {
        add_chain(list, rounds, *chain)?;
    }
    Ok(())
}

/// The constraints that always hold, for so many rounds. Those of the chains are given with tasks by their places.
pub(crate) fn make_base(
    alloc: Global,
    frame: &Frame,
    chains: &[Diff],
    rounds: Rounds,
) -> Result<Vec<Diff>, AllocError>
    requires chains { chains.now ≡ chains_of frame.now }
    ensures { IfOk result (λ v. v.items ≡ base frame.now rounds) }
{
    frame.kept();
    let mut list = Vec::new(alloc);
    add_rounds(&mut list, frame, rounds)?;
    add_turn(&mut list, frame, rounds)?;
    add_tasks(&mut list, frame, rounds)?;
    add_messages(&mut list, frame, rounds)?;
    add_chains(&mut list, rounds, chains)?;
    Ok(list)
}

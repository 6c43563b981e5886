//! The alternatives of a decision, and the constraints that a choice adds.

ghost use Rattle.std.specs.Prelude.{◌≡◌, ℕ, [], ◌+◌, ◌-◌, ◌<◌, ◌≤◌, Contains, length, slice_index_or, pos, ◌+ℤ◌, ◌-ℤ◌, ◌≤ℤ◌};
ghost use Rattle.sched_model.specs.Numbers.{span};
ghost use Rattle.sched_model.specs.PlainMode.{hyper, copy_count, message_at, task_at};
ghost use Rattle.sched_model.specs.ConstraintProblem.{alternatives_of, chosen, decisions, order, places, serve};
ghost use Rattle.sched_model.specs.OpenPrefix.{Chosen};
ghost use Rattle.sched_model.specs.ModeLimits.{IsLimited};
ghost use Rattle.sched_model.specs.ValidMode.{IsValid};
ghost use Rattle.round_service.specs.Serving.{IsServable, most_choice};
ghost use Rattle.node_use.specs.Between.{IsTimed};
ghost use Rattle.constraint_set.specs.Numbers.{numbers_at, times_at};
ghost use Rattle.constraint_set.specs.Decided.{MayChoose, decision_of};

use crate::decisions::Choice;
use crate::frame::{Frame, Rounds};
use node_use::{TaskTimes, divisor_of, order_diffs, places_of};
use round_service::{MessageTimes, first_choices, later_choices, serve_diffs};
use tick_num::Diff;

/// The numbers of the task at the place.
#[tactic(auto, using(crate::proofs::Bounded::timed))]
fn times_of(frame: &Frame, place: u32) -> TaskTimes
    requires { place < length frame.now.tasks }

    ensures times { result ≡ times_at frame.now place }
    ensures timed { IsTimed result }
{
    frame.kept();
    let task = frame.task(place);
    TaskTimes {
        period: task.period(),
        deadline: task.deadline(),
        wcet: task.wcet(),
    }
}

/// The numbers of the message at the place, for so many rounds.
#[tactic(auto, using(crate::proofs::Bounded::servable))]
fn numbers_of(frame: &Frame, rounds: Rounds, place: u32) -> MessageTimes
    requires place { place < length frame.now.messages }

    ensures numbers { result ≡ numbers_at frame.now rounds place }
    ensures servable { IsServable result }
{
    frame.kept();
    let message = frame.message(place);
    MessageTimes {
        rounds: rounds.get() as u64,
        round: frame.round(),
        hyper: frame.ticks(),
        period: message.period(),
        deadline: message.deadline(),
        copies: message.copies(),
    }
}

/// The alternatives of a pair of tasks.
fn pair_alternatives(frame: &Frame, first: u32, second: u32) -> (i64, i64)
    requires first { first < length frame.now.tasks }
    requires second { second < length frame.now.tasks }

    ensures { span result.0 result.1 ≡ places (task_at frame.now first) (task_at frame.now second) }
{
    let one = times_of(frame, first);
    let two = times_of(frame, second);
    places_of(one, two)
}

/// The alternatives of a message's first copy.
fn first_alternatives(frame: &Frame, rounds: Rounds, message: u32) -> (i64, i64)
    requires { message < length frame.now.messages }
    ensures { span result.0 result.1 ≡ alternatives_of frame.now rounds (serve message 0) [] }
{
    let numbers = numbers_of(frame, rounds, message);
    first_choices(numbers)
}

/// The alternatives of a later copy, after these choices.
fn later_alternatives(rounds: Rounds, prefix: &[i64], copy: usize) -> (i64, i64)
    requires copy { (1 ≤ copy) × (copy ≤ length prefix.now) }
    requires previous { (pos 1 ≤ℤ slice_index_or prefix.now (length prefix.now - 1) (pos 0))
        × (slice_index_or prefix.now (length prefix.now - 1) (pos 0) ≤ℤ pos 1000000000000000) }
    requires first { (pos 1 ≤ℤ slice_index_or prefix.now (length prefix.now - copy) (pos 0))
        × (slice_index_or prefix.now (length prefix.now - copy) (pos 0)
        ≤ℤ pos 1000000000000000) }

    ensures low { result.0 ≡ slice_index_or prefix.now (length prefix.now - 1) (pos 0) +ℤ pos 1 }
    ensures high { result.1 ≡ slice_index_or prefix.now (length prefix.now - copy) (pos 0)
        +ℤ pos rounds -ℤ pos 1 }
{
    let previous = prefix[prefix.len() - 1];
    let first = prefix[prefix.len() - copy];
    later_choices(rounds.get() as u64, previous, first)
}

/// The alternatives of a copy of a message, after the choices for the decisions before it.
fn serve_alternatives(
    frame: &Frame,
    rounds: Rounds,
    message: u32,
    copy: u64,
    prefix: &[i64],
) -> (i64, i64)
    requires more { length prefix.now < length (decisions frame.now) }
    requires chosen { Chosen frame.now rounds prefix.now }
    requires decision { serve message copy
        ≡ slice_index_or (decisions frame.now) (length prefix.now) (order 0 0) }

    ensures { span result.0 result.1 ≡ alternatives_of frame.now rounds
        (serve message copy) prefix.now }
{
    if copy == 0 {
        return first_alternatives(frame, rounds, message);
    }
    frame.kept();
    let _some = rounds.get();
    later_alternatives(rounds, prefix, copy as usize)
}

/// The alternatives of a decision, after the choices for the decisions before it.
pub(crate) fn alternatives_at(
    frame: &Frame,
    rounds: Rounds,
    choice: Choice,
    prefix: &[i64],
) -> (i64, i64)
    requires more { length prefix.now < length (decisions frame.now) }
    requires chosen { Chosen frame.now rounds prefix.now }
    requires decision { decision_of choice
        ≡ slice_index_or (decisions frame.now) (length prefix.now) (order 0 0) }

    ensures { span result.0 result.1 ≡ alternatives_of frame.now rounds
        (decision_of choice) prefix.now }
{
    match choice {
        Choice::Serve(message, copy) => serve_alternatives(frame, rounds, message, copy, prefix),
        Choice::Order(first, second) => pair_alternatives(frame, first, second),
    }
}

/// The two constraints of the choice `z` for a pair of tasks.
fn pair_diffs(frame: &Frame, rounds: Rounds, first: u32, second: u32, z: i64) -> [Diff; 2]
    requires first { first < length frame.now.tasks }
    requires second { second < length frame.now.tasks }
    requires place { Contains (places (task_at frame.now first) (task_at frame.now second)) z }

    ensures { result ≡ chosen frame.now rounds (order first second) z }
{
    let one = times_of(frame, first);
    let two = times_of(frame, second);
    let divisor = divisor_of(one, two);
    let earlier = frame.task_var(rounds, first);
    let later = frame.task_var(rounds, second);
    order_diffs(earlier, later, one, two, divisor, z)
}

/// The two constraints of the choice `g` for a copy of a message.
fn copy_diffs(frame: &Frame, rounds: Rounds, message: u32, copy: u64, g: i64) -> [Diff; 2]
    requires message { message < length frame.now.messages }
    requires copy { copy < copy_count frame.now (message_at frame.now message) }
    requires least { pos 1 ≤ℤ g }
    requires most { g ≤ℤ pos (most_choice (numbers_at frame.now rounds message)) }

    ensures { result ≡ chosen frame.now rounds (serve message copy) g }
{
    let opens = frame.opens_var(rounds, message);
    let closes = frame.closes_var(rounds, message);
    let numbers = numbers_of(frame, rounds, message);
    serve_diffs(opens, closes, numbers, copy, g)
}

/// The two constraints of a choice for the decision that stands at the place `at`, after the choices for those before it.
pub(crate) fn diffs_at(
    frame: &Frame,
    rounds: Rounds,
    choice: Choice,
    prefix: &[i64],
    at: usize,
) -> [Diff; 2]
    requires few { length prefix.now ≤ length (decisions frame.now) }
    requires chosen { Chosen frame.now rounds prefix.now }
    requires at { at < length prefix.now }
    requires decision { decision_of choice ≡ slice_index_or (decisions frame.now) at (order 0 0) }

    ensures { result ≡ chosen frame.now rounds (decision_of choice)
        (slice_index_or prefix.now at (pos 0)) }
{
    frame.kept();
    let _some = rounds.get();
    let value = prefix[at];
    match choice {
        Choice::Serve(message, copy) => copy_diffs(frame, rounds, message, copy, value),
        Choice::Order(first, second) => pair_diffs(frame, rounds, first, second, value),
    }
}

/// The two constraints of a choice for a decision.
pub(crate) fn diffs_of(frame: &Frame, rounds: Rounds, choice: Choice, value: i64) -> [Diff; 2]
    requires decision { (at : ℕ) × (at < length (decisions frame.now))
        × (decision_of choice ≡ slice_index_or (decisions frame.now) at (order 0 0)) }
    requires value { MayChoose frame.now rounds (decision_of choice) value }

    ensures { result ≡ chosen frame.now rounds (decision_of choice) value }
{
    match choice {
        Choice::Serve(message, copy) => copy_diffs(frame, rounds, message, copy, value),
        Choice::Order(first, second) => pair_diffs(frame, rounds, first, second, value),
    }
}

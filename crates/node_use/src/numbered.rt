//! The alternatives of a pair of tasks and the constraints of a choice, where tasks go by their numbers over the file. No call takes memory.

ghost use Rattle.std.specs.Prelude.{◌≡◌, ℕ, ℤ, List, ◌<◌, ◌≤◌, Contains, length};
ghost use Rattle.app_graph.specs.Validation.{KeepsRules};
ghost use Rattle.sched_model.specs.ConstraintProblem.{alternatives_of, chosen, order, places};
ghost use Rattle.sched_model.specs.Numbered.{IsTaskOf};
ghost use Rattle.sched_model.specs.Numbers.{span};
ghost use Rattle.sched_model.specs.PlainMode.{plain_at, task_at};
ghost use Rattle.node_use.specs.Between.{IsTimed, Shows};

use crate::laws::pairs_are_decisions;
use crate::places::{TaskTimes, divisor_of, order_diffs, places_of};
use app_graph::ModeSet;
use sched_model::{mode_of_task, task_place, task_row};
use tick_num::Diff;

/// The durations of the task at the place of the mode.
fn times_at(set: &ModeSet, mode: u32, place: u32) -> TaskTimes
    requires rules { KeepsRules set.now }
    requires mode { mode < length set.now.modes }
    requires place { place < length (plain_at set.now mode).tasks }
    ensures shows { Shows result (task_at (plain_at set.now mode) place) }
    ensures timed { IsTimed result }
{
    let row = task_row(set, mode, place);
    TaskTimes {
        period: row.period,
        deadline: row.deadline,
        wcet: row.wcet,
    }
}

/// The alternatives of the pair: the first and the last place that the second task's runs can have between those of the first.
/// There is none where the first of the two numbers is above the last. The pair has the numbers of two tasks of one mode, the earlier
/// one first.
pub fn alternatives(set: &ModeSet, pair: (u32, u32)) -> (i64, i64)
    requires rules { KeepsRules set.now }
    requires pair { (i a b : ℕ) × IsTaskOf set.now i a pair.0 × IsTaskOf set.now i b pair.1 }
    ensures { (i r a b : ℕ) (p : List ℤ) → IsTaskOf set.now i a pair.0 → IsTaskOf set.now i b pair.1 → span result.0 result.1 ≡ alternatives_of (plain_at set.now i) r (order a b) p }
{
    pairs_are_decisions();
    let mode = mode_of_task(set, pair.0);
    let first = task_place(set, mode, pair.0);
    let second = task_place(set, mode, pair.1);
    places_of(times_at(set, mode, first), times_at(set, mode, second))
}

/// The two constraints of the choice `z` for the pair, in the variables of the mode's constraint problem for so many rounds, from 1 to 256.
pub fn diffs_of(set: &ModeSet, mode: u32, rounds: u64, pair: (u32, u32), z: i64) -> [Diff; 2]
    requires rules { KeepsRules set.now }
    requires rounds { rounds ≤ 256 }
    requires first { (a : ℕ) × IsTaskOf set.now mode a pair.0 }
    requires second { (b : ℕ) × IsTaskOf set.now mode b pair.1 }
    requires place { (a b : ℕ) → IsTaskOf set.now mode a pair.0 → IsTaskOf set.now mode b pair.1 → Contains (places (task_at (plain_at set.now mode) a) (task_at (plain_at set.now mode) b)) z }
    ensures { (a b : ℕ) → IsTaskOf set.now mode a pair.0 → IsTaskOf set.now mode b pair.1 → result ≡ chosen (plain_at set.now mode) rounds (order a b) z }
{
    pairs_are_decisions();
    let first = task_place(set, mode, pair.0);
    let second = task_place(set, mode, pair.1);
    let earlier = times_at(set, mode, first);
    let later = times_at(set, mode, second);
    let divisor = divisor_of(earlier, later);
    let rounds = rounds as u32;
    order_diffs(rounds + first, rounds + second, earlier, later, divisor, z)
}

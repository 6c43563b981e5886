//! The clause on tasks that share a node. No call takes memory.

ghost use Rattle.std.specs.Prelude.{◌≡◌, ◌↔◌, ℕ, ◌<◌, ◌≤◌, IsTrue, length, pos, ◌-ℤ◌, ◌<ℤ◌, unsigned_abs};
ghost use Rattle.std.specs.Int.{IsGcd, int_rem_euclid};
ghost use Rattle.tick_num.specs.Classes.{NeverMeet};
ghost use Rattle.sched_model.specs.Judged.{IsCase, NodeShared};
ghost use Rattle.sched_model.specs.PlainMode.{plain_at, task_at};
ghost use Rattle.sched_model.specs.RightSchedule.{RunsApart};
ghost use Rattle.sched_model.specs.Rows.{ShowsTask};

use crate::rows::{TaskRow, task_at, task_count};
use crate::schedule::Schedule;
use crate::schedule_times::task_start;
use app_graph::ModeSet;
use tick_num::gcd;
use tick_num::laws::gcd_class_law;

/// How far the start `to` is after `from`, counted round in steps of `divisor`.
fn gap(from: u64, to: u64, divisor: u64) -> u64
    requires from { from ≤ 2000000000000 }
    requires to { to ≤ 2000000000000 }
    requires divisor { (1 ≤ divisor) × (divisor ≤ 1000000000) }
    ensures value { pos result ≡ int_rem_euclid (pos to -ℤ pos from) (pos divisor) }
    ensures within { result < divisor }
{
    (to as i64 - from as i64).rem_euclid(divisor as i64) as u64
}

/// The greatest common divisor of two periods.
fn divisor_of(first: u64, second: u64) -> u64
    requires first { (1 ≤ first) × (first ≤ 1000000000) }
    requires second { (1 ≤ second) × (second ≤ 1000000000) }
    ensures some { 1 ≤ result }
    ensures most { result ≤ 1000000000 }
    ensures greatest { IsGcd first second result }
{
    gcd(first as i64, second as i64) as u64
}

/// Whether no run of the one task, whose first run starts at `first_start`, ever meets a run of the other.
fn are_apart(first_start: u64, first: TaskRow, second_start: u64, second: TaskRow) -> bool
    requires first_start { first_start ≤ 2000000000000 }
    requires second_start { second_start ≤ 2000000000000 }
    requires first { (1 ≤ first.wcet) × (1 ≤ first.period) × (first.period ≤ 1000000000) }
    requires second { (1 ≤ second.wcet) × (1 ≤ second.period) × (second.period ≤ 1000000000) }
    ensures { IsTrue result ↔ NeverMeet (pos first.period) (pos first.wcet) (pos first_start) (pos second.period) (pos second.wcet) (pos second_start) }
{
    gcd_class_law();
    let divisor = divisor_of(first.period, second.period);
    let gap = gap(first_start, second_start, divisor);
    if gap < first.wcet {
        return false;
    }
    second.wcet <= divisor - gap
}

/// Whether the tasks at the places, of which the second is `later`, never run at once, or are on two nodes.
fn pair_fits(
    set: &ModeSet,
    mode: u32,
    s: &Schedule,
    first: usize,
    second: usize,
    later: TaskRow,
) -> bool
    requires case { IsCase set.now mode s.now }
    requires first { first < length (plain_at set.now mode).tasks }
    requires second { second < length (plain_at set.now mode).tasks }
    requires later { ShowsTask later (task_at (plain_at set.now mode) second) }
    ensures { IsTrue result ↔ NodeShared (plain_at set.now mode) s.now first second }
{
    let earlier = task_at(set, mode, first);
    if earlier.node != later.node {
        return true;
    }
    are_apart(task_start(s, first), earlier, task_start(s, second), later)
}

/// Whether the task at the place never runs at once with an earlier one on its node.
fn pairs_fit(set: &ModeSet, mode: u32, s: &Schedule, second: usize) -> bool
    requires case { IsCase set.now mode s.now }
    requires second { second < length (plain_at set.now mode).tasks }
    ensures { IsTrue result ↔ ((a : ℕ) → a < second → NodeShared (plain_at set.now mode) s.now a second) }
{
    let later = task_at(set, mode, second);
    for first in 0..second {
        if !pair_fits(set, mode, s, first, second, later) {
            return false;
        }
    }
    true
}

/// Whether no two tasks on one node ever run at once.
pub(crate) fn nodes_fit(set: &ModeSet, mode: u32, s: &Schedule) -> bool
    requires { IsCase set.now mode s.now }
    ensures { IsTrue result ↔ ((a b : ℕ) → a < b → b < length (plain_at set.now mode).tasks → (task_at (plain_at set.now mode) a).node ≡ (task_at (plain_at set.now mode) b).node → RunsApart (plain_at set.now mode) s.now a b) }
{
    for second in 0..task_count(set, mode) {
        if !pairs_fit(set, mode, s, second) {
            return false;
        }
    }
    true
}

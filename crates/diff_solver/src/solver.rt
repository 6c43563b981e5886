//! Whether a list of constraints has a solution.

ghost use Rattle.std.specs.Prelude.{◌≡◌, ℕ, ◌<◌, ◌≤◌, ◌↔◌, ℤ, length, take, drop, All, IfNone, IfSome};
ghost use Rattle.tick_num.specs.Differences.{InRange, LeastValues, MeetsAll, NegativeCycle, listed};
ghost use Rattle.diff_solver.specs.Bounds.{Small};
ghost use Rattle.diff_solver.specs.Solving.{IsAnswer};

use crate::cycles::close;
use crate::rounds::{Swept, sweep};
use crate::workspace::Work;
use tick_num::{Diff, Time};

/// Whether a list has a solution.
#[derive(Clone, Copy, Debug, PartialEq, Eq)]
pub enum Solved {
    /// It has; the work has the least values of those from 0 on.
    Least,
    /// It has none; the work has a cycle of constraints whose bounds sum below 0.
    Cycle,
}

/// Solves a list of constraints on the variables 0 to `n - 1`, whose bounds are within 10^13 of
/// zero. It takes no memory: the values or the cycle that it finds stand in the work, until the
/// next call. It goes over the list until nothing changes, at most once more than there are
/// variables.
pub fn solve(n: u32, list: &[Diff], work: &mut Work) -> Solved
    requires few { n ≤ 768 }
    requires long { length list.now < 4_294_967_296 }
    requires range { InRange n list.now }
    requires small { All Small list.now }
    requires variables { n ≤ work.old.variables }
    requires constraints { length list.now ≤ work.old.constraints }
    ensures answer { IsAnswer list.now n work.new result }
    ensures least { (result ≡ Solved.Least) ↔ ((v : ℕ → ℤ) × MeetsAll v list.now) }
    ensures cycle { (result ≡ Solved.Cycle) ↔ ((v : ℕ → ℤ) → MeetsAll v list.now → ⊥) }
    ensures variables { work.new.variables ≡ work.old.variables }
    ensures constraints { work.new.constraints ≡ work.old.constraints }
{
    let used = n as usize;
    work.used = used;
    let cycle = settle_front(
        used,
        list,
        &mut work.values,
        &mut work.rounds,
        &mut work.causes,
        &mut work.cycle,
    );
    match cycle {
        None => {
            work.start = used;
            Solved::Least
        }
        Some(start) => {
            work.start = start;
            Solved::Cycle
        }
    }
}

/// Settles a list over the first `n` places of each slice.
fn settle_front(
    n: usize,
    list: &[Diff],
    values: &mut [Time],
    rounds: &mut [u32],
    causes: &mut [u32],
    cycle: &mut [u32],
) -> Option<usize>
    requires few { n ≤ 768 }
    requires long { length list.now < 4_294_967_296 }
    requires range { InRange n list.now }
    requires small { All Small list.now }
    requires values { n ≤ length values.old }
    requires rounds { n ≤ length rounds.old }
    requires causes { n ≤ length causes.old }
    requires cycle { n ≤ length cycle.old }
    ensures least { IfNone result (LeastValues list.now (listed (take n values.new))) }
    ensures start { IfSome result (λ start. start < n) }
    ensures cycle { IfSome result (λ start. NegativeCycle list.now (drop start (take n cycle.new))) }
{
    settle(
        list,
        &mut values[..n],
        &mut rounds[..n],
        &mut causes[..n],
        &mut cycle[..n],
    )
}

/// Raises the values from 0 on, round by round, until no constraint forces one up. Where a round
/// after as many as there are variables still raises one, or a value goes above the limit, its
/// causes lead back to a cycle, and the answer is where that starts.
fn settle(
    list: &[Diff],
    values: &mut [Time],
    rounds: &mut [u32],
    causes: &mut [u32],
    cycle: &mut [u32],
) -> Option<usize>
    requires few { length values.old ≤ 768 }
    requires long { length list.now < 4_294_967_296 }
    requires range { InRange (length values.old) list.now }
    requires small { All Small list.now }
    requires rounds { length rounds.old ≡ length values.old }
    requires causes { length causes.old ≡ length values.old }
    requires cycle { length cycle.old ≡ length values.old }
    ensures least { IfNone result (LeastValues list.now (listed values.new)) }
    ensures start { IfSome result (λ start. start < length cycle.new) }
    ensures cycle { IfSome result (λ start. NegativeCycle list.now (drop start cycle.new)) }
{
    values.fill(0);
    rounds.fill(0);
    let mut last = 0;
    for round in 0..values.len() as u32 + 1 {
        match sweep(list, round, values, rounds, causes) {
            Swept::Settled => return None,
            Swept::Raised(variable) => last = variable,
            Swept::TooHigh(variable) => return Some(close(list, variable, causes, cycle)),
        }
    }
    Some(close(list, last, causes, cycle))
}

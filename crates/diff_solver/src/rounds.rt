//! Rounds over a list of constraints, in place.

ghost use Rattle.std.specs.Prelude.{◌≡◌, ℕ, ◌+◌, ◌<◌, ◌≤◌, length, All, pos, ◌≤ℤ◌};
ghost use Rattle.std.specs.Bool.{OnTrue, OnFalse};
ghost use Rattle.tick_num.specs.Differences.{InRange, listed};
ghost use Rattle.diff_solver.specs.Bounds.{Small};
ghost use Rattle.diff_solver.specs.Raising.{StandsAfter, Within, Pending, Raises, Keeps, IsSwept};

use tick_num::{Diff, Time};

/// No value above this stands without a cycle among the causes.
const LIMIT: Time = 7_680_000_000_000_000;

/// What a round over the list gave.
#[derive(Drop)]
pub(crate) enum Swept {
    /// No value was raised: each constraint is met.
    Settled,
    /// This variable was the last to be raised.
    Raised(u32),
    /// This variable was raised above the limit.
    TooHigh(u32),
}

/// Raises, in the list's order, each value that a constraint forces up, and looks only at
/// constraints whose `x` was raised in this round or the last. Rounds count from 0, and a raised
/// variable has as its mark the round's number and 1.
pub(crate) fn sweep(
    list: &[Diff],
    round: u32,
    values: &mut [Time],
    rounds: &mut [u32],
    causes: &mut [u32],
) -> Swept
    requires range { InRange (length values.old) list.now }
    requires small { All Small list.now }
    requires long { length list.now < 4_294_967_296 }
    requires round { round ≤ 768 }
    requires state { StandsAfter list.now round values.old rounds.old causes.old }
    requires within { Within values.old }
    requires pending { Pending round list.now values.old rounds.old }
    ensures state { StandsAfter list.now (round + 1) values.new rounds.new causes.new }
    ensures swept { IsSwept list.now (round + 1) values.new rounds.new result }
{
    let mut swept = Swept::Settled;
    for (position, d) in list.iter().enumerate() {
        if rounds[d.x as usize] < round {
            continue;
        }
        if !raise(d, position as u32, round + 1, values, rounds, causes) {
            continue;
        }
        if values[d.y as usize] > LIMIT {
            return Swept::TooHigh(d.y);
        }
        swept = Swept::Raised(d.y);
    }
    swept
}

/// Raises the value of `y` to what the constraint forces, and notes the round and the constraint's
/// position. False where the constraint is met as it is.
fn raise(
    d: &Diff,
    position: u32,
    mark: u32,
    values: &mut [Time],
    rounds: &mut [u32],
    causes: &mut [u32],
) -> bool
    requires x { d.now.x < length values.old }
    requires y { d.now.y < length values.old }
    requires rounds { length rounds.old ≡ length values.old }
    requires causes { length causes.old ≡ length values.old }
    requires small { Small d.now }
    requires from_zero { (x : ℕ) → pos 0 ≤ℤ listed values.old x }
    requires within { Within values.old }
    ensures raised { OnTrue result (Raises d.now position mark values.old rounds.old causes.old values.new rounds.new causes.new) }
    ensures kept { OnFalse result (Keeps d.now values.old rounds.old causes.old values.new rounds.new causes.new) }
{
    let y = d.y as usize;
    let forced = values[d.x as usize] - d.c;
    if forced <= values[y] {
        return false;
    }
    values[y] = forced;
    rounds[y] = mark;
    causes[y] = position;
    true
}

//! The places that the runs of one task can have between those of another, over plain numbers. No call takes memory.

ghost use Rattle.std.specs.Prelude.{◌≡◌, ◌≤◌, Contains, pos, negsuc, neg_ℤ, ◌+ℤ◌, ◌-ℤ◌, ◌*ℤ◌, ◌≤ℤ◌};
ghost use Rattle.std.specs.Int.{int_div_euclid};
ghost use Rattle.sched_model.specs.ConstraintProblem.{latest, places};
ghost use Rattle.sched_model.specs.Numbers.{gcd, span};
ghost use Rattle.node_use.specs.Between.{IsTimed, between, plain};

use tick_num::{Diff, Time, gcd};

/// What the places of a task's runs depend on: durations, in ticks.
#[derive(Clone, Copy, Debug, PartialEq, Eq, Drop)]
pub struct TaskTimes {
    /// The time from one run's start to the next one's, from 1 to 1,000,000,000.
    pub period: u64,
    /// The time in which a chain of runs is to end, at most 1,000,000,000,000.
    pub deadline: u64,
    /// How long a run takes at most, from 1 to the period.
    pub wcet: u64,
}

/// The greatest common divisor of the periods of two tasks.
pub fn divisor_of(first: TaskTimes, second: TaskTimes) -> Time
    requires first { IsTimed first }
    requires second { IsTimed second }
    ensures value { result ≡ pos (gcd first.period second.period) }
    ensures low { pos 1 ≤ℤ result }
    ensures high { result ≤ℤ pos 1000000000 }
{
    gcd(first.period as i64, second.period as i64)
}

/// The latest start of a task's first run.
fn latest(task: TaskTimes) -> Time
    requires { IsTimed task }
    ensures value { result ≡ latest (plain task) }
    ensures low { negsuc 0 ≤ℤ result }
    ensures high { result ≤ℤ pos 1001000000000 }
{
    task.period as i64 - 1 + task.deadline as i64 - task.wcet as i64
}

/// The quotient of `a` by `b`, rounded down.
fn quotient(a: Time, b: Time) -> Time
    requires divisor { pos 1 ≤ℤ b }
    requires low { negsuc 1500000000000 ≤ℤ a }
    requires high { a ≤ℤ pos 1500000000000 }
    ensures value { result ≡ int_div_euclid a b }
    ensures low { negsuc 1500000000000 ≤ℤ result }
    ensures high { result ≤ℤ pos 1500000000000 }
{
    a.div_euclid(b)
}

/// What the quotient by the divisor is taken of for the first place.
fn least_end(wcet: u64, latest: Time, divisor: Time) -> Time
    requires wcet { wcet ≤ 1000000000 }
    requires divisor { (pos 1 ≤ℤ divisor) × (divisor ≤ℤ pos 1000000000) }
    requires latest { (negsuc 0 ≤ℤ latest) × (latest ≤ℤ pos 1001000000000) }
    ensures value { result ≡ pos wcet -ℤ latest +ℤ divisor -ℤ pos 1 }
    ensures low { negsuc 1500000000000 ≤ℤ result }
    ensures high { result ≤ℤ pos 1500000000000 }
{
    wcet as i64 - latest + divisor - 1
}

/// The first place that has room for the second task's runs, where the first task starts at `latest` at most.
fn first_place(wcet: u64, latest: Time, divisor: Time) -> i64
    requires wcet { wcet ≤ 1000000000 }
    requires divisor { (pos 1 ≤ℤ divisor) × (divisor ≤ℤ pos 1000000000) }
    requires latest { (negsuc 0 ≤ℤ latest) × (latest ≤ℤ pos 1001000000000) }
    ensures value { result ≡ int_div_euclid (pos wcet -ℤ latest +ℤ divisor -ℤ pos 1) divisor -ℤ pos 1 }
    ensures low { negsuc 1600000000000 ≤ℤ result }
    ensures high { result ≤ℤ pos 1600000000000 }
{
    let least = least_end(wcet, latest, divisor);
    let place = quotient(least, divisor);
    place - 1
}

/// The last place that has room for them, where the second task starts at `latest` at most.
fn last_place(wcet: u64, latest: Time, divisor: Time) -> i64
    requires wcet { wcet ≤ 1000000000 }
    requires divisor { (pos 1 ≤ℤ divisor) × (divisor ≤ℤ pos 1000000000) }
    requires latest { (negsuc 0 ≤ℤ latest) × (latest ≤ℤ pos 1001000000000) }
    ensures value { result ≡ int_div_euclid (latest -ℤ pos wcet) divisor }
    ensures low { negsuc 1600000000000 ≤ℤ result }
    ensures high { result ≤ℤ pos 1600000000000 }
{
    let most = latest - wcet as i64;
    quotient(most, divisor)
}

/// The alternatives of a pair of tasks: the first and the last place that the second task's runs can have between
/// those of the first. There is none where the first of the two numbers is above the last.
pub fn places_of(first: TaskTimes, second: TaskTimes) -> (i64, i64)
    requires first { IsTimed first }
    requires second { IsTimed second }
    ensures value { span result.0 result.1 ≡ places (plain first) (plain second) }
    ensures low { negsuc 1600000000000 ≤ℤ result.0 }
    ensures high { result.1 ≤ℤ pos 1600000000000 }
{
    let divisor = divisor_of(first, second);
    let both = (first.wcet + second.wcet) as i64;
    if divisor < both {
        return (1, 0);
    }
    let low = first_place(second.wcet, latest(first), divisor);
    let high = last_place(first.wcet, latest(second), divisor);
    (low, high)
}

/// Where the place `z` begins, as a distance from the first task's start. `divisor` is the greatest common divisor of the periods.
fn place_start(first: TaskTimes, second: TaskTimes, divisor: Time, z: i64) -> Time
    requires first { IsTimed first }
    requires second { IsTimed second }
    requires divisor { divisor ≡ pos (gcd first.period second.period) }
    requires place { Contains (places (plain first) (plain second)) z }
    ensures value { result ≡ z *ℤ divisor }
    ensures low { negsuc 1003000000000 ≤ℤ result }
    ensures high { result ≤ℤ pos 1003000000000 }
{
    z * divisor
}

/// The bound on the first start minus the second one, where a run of `wcet` ticks lies before the second start from `start` on.
fn after_run(start: Time, wcet: u64) -> Time
    requires wcet { wcet ≤ 1000000000 }
    requires start { (negsuc 1003000000000 ≤ℤ start) × (start ≤ℤ pos 1003000000000) }
    ensures { result ≡ neg_ℤ (start +ℤ pos wcet) }
{
    -(start + wcet as i64)
}

/// The bound on the second start minus the first one, where a run of `wcet` ticks is to end within `divisor` from `start` on.
fn before_run(start: Time, divisor: Time, wcet: u64) -> Time
    requires wcet { wcet ≤ 1000000000 }
    requires divisor { (pos 1 ≤ℤ divisor) × (divisor ≤ℤ pos 1000000000) }
    requires start { (negsuc 1003000000000 ≤ℤ start) × (start ≤ℤ pos 1003000000000) }
    ensures { result ≡ start +ℤ divisor -ℤ pos wcet }
{
    start + divisor - wcet as i64
}

/// The two constraints of the choice `z`: the second task's runs stand at place `z` between those of the first.
/// `divisor` is the greatest common divisor of the periods.
pub fn order_diffs(
    first_var: u32,
    second_var: u32,
    first: TaskTimes,
    second: TaskTimes,
    divisor: Time,
    z: i64,
) -> [Diff; 2]
    requires first { IsTimed first }
    requires second { IsTimed second }
    requires divisor { divisor ≡ pos (gcd first.period second.period) }
    requires place { Contains (places (plain first) (plain second)) z }
    ensures { result ≡ between first_var second_var (plain first) (plain second) z }
{
    let start = place_start(first, second, divisor, z);
    let after = after_run(start, first.wcet);
    let before = before_run(start, divisor, second.wcet);
    [
        Diff {
            x: first_var,
            y: second_var,
            c: after,
        },
        Diff {
            x: second_var,
            y: first_var,
            c: before,
        },
    ]
}

//! Verdicts on schedules of small modes: right ones, and ones that break each clause first.

ghost use Rattle.std.specs.Prelude.{◌≡◌, ◌∷◌, [], ◌<◌, All, codes, IfOk, length};
ghost use Rattle.sched_model.specs.TestModes.{IsLoop, IsShared, Planned, loop_with, shared_with};
ghost use Rattle.sched_model.specs.TimeLimits.{IsTime};

use crate::{Schedule, verify};
use app_graph::{App, ListOf, Message, Mode, ModeSet, Name, Task};
use std::alloc::{AllocError, Global};
use std::test::Fail;
use tick_num::Time;

fn name(alloc: Global, text: &str) -> Result<Name, AllocError>
    ensures { IfOk result (λ n. n ≡ text.now) }
{
    Name::copied(alloc, text.as_bytes())
}

/// A list of one.
fn one<T: Drop>(alloc: Global, item: T) -> Result<ListOf<T>, AllocError>
    ensures { IfOk result (λ list. list ≡ item ∷ []) }
{
    let mut items = Vec::new(alloc);
    items.push(item)?;
    Ok(ListOf::from_vec(items))
}

/// A list of two.
fn two<T: Drop>(alloc: Global, first: T, second: T) -> Result<ListOf<T>, AllocError>
    ensures { IfOk result (λ list. list ≡ first ∷ second ∷ []) }
{
    let mut items = Vec::new(alloc);
    items.push(first)?;
    items.push(second)?;
    Ok(ListOf::from_vec(items))
}

/// A list of three.
fn three<T: Drop>(alloc: Global, first: T, second: T, third: T) -> Result<ListOf<T>, AllocError>
    ensures { IfOk result (λ list. list ≡ first ∷ second ∷ third ∷ []) }
{
    let mut items = Vec::new(alloc);
    items.push(first)?;
    items.push(second)?;
    items.push(third)?;
    Ok(ListOf::from_vec(items))
}

fn task(alloc: Global, text: &str, node: u32, wcet: Time, number: u32) -> Result<Task, AllocError>
    ensures { IfOk result (λ t. t ≡ record { name = text.now; node = node; wcet = wcet; body = codes "tally"; number = number }) }
{
    Ok(Task {
        name: name(alloc, text)?,
        node,
        wcet,
        body: name(alloc, "tally")?,
        number,
    })
}

/// A message from one task to one.
fn message(
    alloc: Global,
    text: &str,
    from: u32,
    to: u32,
    number: u32,
) -> Result<Message, AllocError>
    ensures { IfOk result (λ m. m ≡ record { name = text.now; from = from ∷ []; to = to ∷ []; number = number; copies = 1 }) }
{
    Ok(Message {
        name: name(alloc, text)?,
        from: one(alloc, from)?,
        to: one(alloc, to)?,
        number,
        copies: 1,
    })
}

/// A control loop over three nodes, with the greatest gap `gap`.
fn loop_set(alloc: Global, gap: Time) -> Result<ModeSet, AllocError>
    ensures { IfOk result (λ set. set ≡ loop_with gap) }
{
    let sense = task(alloc, "sense", 1, 2, 0)?;
    let ctrl = task(alloc, "ctrl", 0, 5, 1)?;
    let act = task(alloc, "act", 2, 1, 2)?;
    let first = message(alloc, "m1", 0, 1, 0)?;
    let second = message(alloc, "m2", 1, 2, 1)?;
    let app = App {
        name: name(alloc, "loop")?,
        period: 100,
        deadline: 100,
        tasks: three(alloc, sense, ctrl, act)?,
        messages: two(alloc, first, second)?,
    };
    let mode = Mode {
        name: name(alloc, "run")?,
        apps: one(alloc, app)?,
    };
    let nodes = three(
        alloc,
        name(alloc, "n0")?,
        name(alloc, "n1")?,
        name(alloc, "n2")?,
    )?;
    Ok(ModeSet {
        slots: 2,
        round: 20,
        gap,
        host: 0,
        nodes,
        modes: one(alloc, mode)?,
    })
}

/// Two tasks of one node, of periods 4 and 6, of which the second takes `wcet`.
fn shared_set(alloc: Global, wcet: Time) -> Result<ModeSet, AllocError>
    ensures { IfOk result (λ set. set ≡ shared_with wcet) }
{
    let x = task(alloc, "x", 0, 1, 0)?;
    let y = task(alloc, "y", 0, wcet, 1)?;
    let first = App {
        name: name(alloc, "a")?,
        period: 4,
        deadline: 4,
        tasks: one(alloc, x)?,
        messages: ListOf::from_vec(Vec::new(alloc)),
    };
    let second = App {
        name: name(alloc, "b")?,
        period: 6,
        deadline: 6,
        tasks: one(alloc, y)?,
        messages: ListOf::from_vec(Vec::new(alloc)),
    };
    let mode = Mode {
        name: name(alloc, "run")?,
        apps: two(alloc, first, second)?,
    };
    Ok(ModeSet {
        slots: 1,
        round: 3,
        gap: 12,
        host: 0,
        nodes: one(alloc, name(alloc, "n0")?)?,
        modes: one(alloc, mode)?,
    })
}

/// The control loop with rounds at most 100 ticks apart.
pub(crate) fn wide_loop(alloc: Global) -> Result<ModeSet, AllocError>
    ensures { IfOk result (λ set. IsLoop set) }
{
    loop_set(alloc, 100)
}

/// The control loop with rounds at most 60 ticks apart.
fn close_loop(alloc: Global) -> Result<ModeSet, AllocError>
    ensures { IfOk result (λ set. IsLoop set) }
{
    loop_set(alloc, 60)
}

/// Two tasks of one node that fit between each other.
fn short_tasks(alloc: Global) -> Result<ModeSet, AllocError>
    ensures { IfOk result (λ set. IsShared set) }
{
    shared_set(alloc, 1)
}

/// Two tasks of one node that do not.
fn long_tasks(alloc: Global) -> Result<ModeSet, AllocError>
    ensures { IfOk result (λ set. IsShared set) }
{
    shared_set(alloc, 2)
}

/// The times and tables of a schedule of the control loop.
#[derive(Clone, Copy, Drop)]
struct Plan<'a> {
    starts: [u64; 2],
    tasks: [u64; 3],
    windows: [(u64, u64); 2],
    first: &'a [u32],
    second: &'a [u32],
}

/// A right schedule of it.
const RIGHT: Plan<'static> = Plan {
    starts: [0, 23],
    tasks: [21, 43, 120],
    windows: [(23, 43), (48, 120)],
    first: &[1],
    second: &[0],
};

/// The time, within the limit.
fn time(ticks: u64) -> Time
    ensures { IsTime result }
{
    ticks.min(2_000_000_000_000) as Time
}

/// The table with the numbers, each of which is 0 or 1.
fn table(alloc: Global, numbers: &[u32]) -> Result<ListOf<u32>, AllocError>
    ensures length { IfOk result (λ list. length list ≡ length numbers.now) }
    ensures numbers { IfOk result (λ list. All (λ n. n < 2) list) }
{
    let mut items = Vec::new(alloc);
    for number in numbers {
        items.push(*number % 2)?;
    }
    Ok(ListOf::from_vec(items))
}

/// The times, within the limit.
fn times(alloc: Global, ticks: &[u64]) -> Result<ListOf<Time>, AllocError>
    ensures length { IfOk result (λ list. length list ≡ length ticks.now) }
    ensures times { IfOk result (λ list. All IsTime list) }
{
    let mut items = Vec::new(alloc);
    for tick in ticks {
        items.push(time(*tick))?;
    }
    Ok(ListOf::from_vec(items))
}

/// The windows, within the limit.
fn windows(alloc: Global, ticks: &[(u64, u64)]) -> Result<ListOf<(Time, Time)>, AllocError>
    ensures length { IfOk result (λ list. length list ≡ length ticks.now) }
    ensures times { IfOk result (λ list. All (λ w. IsTime w.0 × IsTime w.1) list) }
{
    let mut items = Vec::new(alloc);
    for tick in ticks {
        items.push((time(tick.0), time(tick.1)))?;
    }
    Ok(ListOf::from_vec(items))
}

/// The tables of two rounds.
fn tables(alloc: Global, first: &[u32], second: &[u32]) -> Result<ListOf<ListOf<u32>>, AllocError>
    ensures length { IfOk result (λ list. length list ≡ 2) }
    ensures numbers { IfOk result (λ list. All (λ table. All (λ n. n < 2) table) list) }
{
    let first = table(alloc, first)?;
    let second = table(alloc, second)?;
    two(alloc, first, second)
}

/// The schedule of the plan.
fn schedule(alloc: Global, plan: &Plan) -> Result<Schedule, AllocError>
    ensures { IfOk result (λ s. Planned 2 3 2 s) }
{
    Ok(Schedule {
        starts: times(alloc, &plan.starts)?,
        tasks: times(alloc, &plan.tasks)?,
        messages: windows(alloc, &plan.windows)?,
        tables: tables(alloc, plan.first, plan.second)?,
    })
}

/// The verdict on the plan, or `Err` for want of memory.
fn verdict(alloc: Global, set: &ModeSet, plan: &Plan) -> Result<Result<(), u8>, AllocError>
    requires { IsLoop set.now }
{
    let s = schedule(alloc, plan)?;
    Ok(verify(set, 0, &s))
}

/// The table of one round without a message.
fn empty_table(alloc: Global) -> Result<ListOf<ListOf<u32>>, AllocError>
    ensures length { IfOk result (λ list. length list ≡ 1) }
    ensures empty { IfOk result (λ list. All (λ table. length table ≡ 0) list) }
    ensures numbers { IfOk result (λ list. All (λ table. All (λ n. n < 2) table) list) }
{
    let empty = table(alloc, &[])?;
    one(alloc, empty)
}

/// A schedule of one round for two tasks.
fn pair_schedule(alloc: Global, starts: [u64; 2]) -> Result<Schedule, AllocError>
    ensures planned { IfOk result (λ s. Planned 1 2 0 s) }
    ensures empty { IfOk result (λ s. All (λ table. length table ≡ 0) s.tables) }
{
    Ok(Schedule {
        starts: times(alloc, &[0])?,
        tasks: times(alloc, &starts)?,
        messages: windows(alloc, &[])?,
        tables: empty_table(alloc)?,
    })
}

/// The verdict on the starts of two tasks, or `Err` for want of memory.
fn pair_verdict(
    alloc: Global,
    set: &ModeSet,
    starts: [u64; 2],
) -> Result<Result<(), u8>, AllocError>
    requires { IsShared set.now }
{
    let s = pair_schedule(alloc, starts)?;
    Ok(verify(set, 0, &s))
}

#[test]
fn verify_clauses(rt: HostRuntime) -> Result<(), Fail> {
    let alloc = rt.alloc();
    let set = wide_loop(alloc)?;
    let right = RIGHT;
    let early_round = Plan {
        starts: [0, 22],
        ..right
    };
    let early_act = Plan {
        tasks: [21, 43, 119],
        ..right
    };
    let nothing_first = Plan {
        first: &[],
        ..right
    };
    assert_eq!(rt; verdict(alloc, &set, &right)?, Ok(()));
    assert_eq!(rt; verdict(alloc, &set, &early_round)?, Err(7));
    assert_eq!(rt; verdict(alloc, &set, &early_act)?, Err(4));
    assert_eq!(rt; verdict(alloc, &set, &nothing_first)?, Err(7));
    Ok(())
}

#[test]
fn first_broken_clauses(rt: HostRuntime) -> Result<(), Fail> {
    let alloc = rt.alloc();
    let set = wide_loop(alloc)?;
    let right = RIGHT;
    let over_the_end = Plan {
        starts: [0, 81],
        ..right
    };
    let at_the_end = Plan {
        starts: [0, 80],
        ..right
    };
    let last_sense = Plan {
        tasks: [99, 43, 120],
        ..right
    };
    let late_sense = Plan {
        tasks: [100, 43, 120],
        ..right
    };
    let late_end = Plan {
        tasks: [20, 43, 120],
        ..right
    };
    let twice = Plan {
        first: &[1, 1],
        ..right
    };
    let outside = Plan {
        first: &[1, 0],
        ..right
    };
    assert_eq!(rt; verdict(alloc, &set, &over_the_end)?, Err(1));
    assert_eq!(rt; verdict(alloc, &set, &at_the_end)?, Err(7));
    assert_eq!(rt; verdict(alloc, &close_loop(alloc)?, &right)?, Err(2));
    assert_eq!(rt; verdict(alloc, &set, &last_sense)?, Err(4));
    assert_eq!(rt; verdict(alloc, &set, &late_sense)?, Err(3));
    assert_eq!(rt; verdict(alloc, &set, &late_end)?, Err(5));
    assert_eq!(rt; verdict(alloc, &set, &twice)?, Err(7));
    assert_eq!(rt; verdict(alloc, &set, &outside)?, Err(8));
    Ok(())
}

#[test]
fn runs_of_one_node(rt: HostRuntime) -> Result<(), Fail> {
    let alloc = rt.alloc();
    assert_eq!(rt; pair_verdict(alloc, &short_tasks(alloc)?, [0, 1])?, Ok(()));
    assert_eq!(rt; pair_verdict(alloc, &short_tasks(alloc)?, [0, 2])?, Err(6));
    assert_eq!(rt; pair_verdict(alloc, &long_tasks(alloc)?, [0, 1])?, Err(6));
    Ok(())
}

#[test]
fn times_at_their_limit(rt: HostRuntime) -> Result<(), Fail> {
    let alloc = rt.alloc();
    let set = wide_loop(alloc)?;
    let most = 2_000_000_000_000;
    let right = RIGHT;
    let last_start = Plan {
        starts: [0, most],
        ..right
    };
    let last_tasks = Plan {
        tasks: [21, most, most],
        ..right
    };
    let last_windows = Plan {
        windows: [(23, 43), (most - 1, most)],
        ..right
    };
    assert_eq!(rt; verdict(alloc, &set, &last_start)?, Err(1));
    assert_eq!(rt; verdict(alloc, &set, &last_tasks)?, Err(4));
    assert_eq!(rt; verdict(alloc, &set, &last_windows)?, Err(4));
    Ok(())
}

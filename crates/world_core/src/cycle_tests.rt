//! The entries of the hyperperiods of a control loop and of a mode of one task.

ghost use Rattle.std.specs.Prelude.{◌≡◌, ◌∷◌, [], IfOk, IsTrue, codes};
ghost use Rattle.app_graph.specs.Validation.{KeepsRules};
ghost use Rattle.runtime_model.specs.Plans.{AreSchedules};
ghost use Rattle.node_tables.specs.TestPlans.{idle_mode, idle_schedule, loop_mode, loop_schedule, set_with};

use crate::cycle::{Action, Entry, cycles, hypers};
use crate::owners::owners;
use app_graph::{App, ListOf, Message, Mode, ModeSet, Name, Task};
use sched_model::{Schedule, verify};
use std::alloc::{AllocError, Global};
use std::test::Fail;
use tick_num::Time;

fn name(alloc: Global, text: &str) -> Result<Name, AllocError>
    ensures { IfOk result (λ n. n ≡ text.now) }
{
    Name::copied(alloc, text.as_bytes())
}

/// An empty list.
fn none<T: Drop>(alloc: Global) -> ListOf<T>
    ensures { result ≡ [] }
{
    ListOf::from_vec(Vec::new(alloc))
}

/// A list of one.
fn one<T: Drop>(alloc: Global, item: T) -> Result<ListOf<T>, AllocError>
    ensures { IfOk result (λ list. list ≡ item ∷ []) }
{
    let mut items = Vec::new(alloc);
    items.push(item)?;
    Ok(ListOf::from_vec(items))
}

/// A list of two.
fn two<T: Drop>(alloc: Global, first: T, second: T) -> Result<ListOf<T>, AllocError>
    ensures { IfOk result (λ list. list ≡ first ∷ second ∷ []) }
{
    let mut items = Vec::new(alloc);
    items.push(first)?;
    items.push(second)?;
    Ok(ListOf::from_vec(items))
}

/// A list of three.
fn three<T: Drop>(alloc: Global, first: T, second: T, third: T) -> Result<ListOf<T>, AllocError>
    ensures { IfOk result (λ list. list ≡ first ∷ second ∷ third ∷ []) }
{
    let mut items = Vec::new(alloc);
    items.push(first)?;
    items.push(second)?;
    items.push(third)?;
    Ok(ListOf::from_vec(items))
}

fn task(alloc: Global, text: &str, node: u32, wcet: Time, number: u32) -> Result<Task, AllocError>
    ensures { IfOk result (λ t. t ≡ record {
      name = text.now;
      node = node;
      wcet = wcet;
      body = codes "tally";
      number = number;
    }) }
{
    Ok(Task {
        name: name(alloc, text)?,
        node,
        wcet,
        body: name(alloc, "tally")?,
        number,
    })
}

/// A message from one task to one.
fn message(
    alloc: Global,
    text: &str,
    from: u32,
    to: u32,
    number: u32,
) -> Result<Message, AllocError>
    ensures { IfOk result (λ m. m
        ≡ record { name = text.now; from = from ∷ []; to = to ∷ []; number = number; copies = 1 }) }
{
    Ok(Message {
        name: name(alloc, text)?,
        from: one(alloc, from)?,
        to: one(alloc, to)?,
        number,
        copies: 1,
    })
}

fn loop_mode(alloc: Global) -> Result<Mode, AllocError>
    ensures { IfOk result (λ m. m ≡ loop_mode) }
{
    let sense = task(alloc, "sense", 1, 2, 0)?;
    let ctrl = task(alloc, "ctrl", 0, 5, 1)?;
    let act = task(alloc, "act", 2, 1, 2)?;
    let first = message(alloc, "m1", 0, 1, 0)?;
    let second = message(alloc, "m2", 1, 2, 1)?;
    let app = App {
        name: name(alloc, "loop")?,
        period: 100,
        deadline: 100,
        tasks: three(alloc, sense, ctrl, act)?,
        messages: two(alloc, first, second)?,
    };
    Ok(Mode {
        name: name(alloc, "run")?,
        apps: one(alloc, app)?,
    })
}

fn idle_mode(alloc: Global) -> Result<Mode, AllocError>
    ensures { IfOk result (λ m. m ≡ idle_mode) }
{
    let led = task(alloc, "led", 2, 1, 3)?;
    let app = App {
        name: name(alloc, "blink")?,
        period: 100,
        deadline: 100,
        tasks: one(alloc, led)?,
        messages: none(alloc),
    };
    Ok(Mode {
        name: name(alloc, "idle")?,
        apps: one(alloc, app)?,
    })
}

/// Three nodes with these modes.
fn set_with(alloc: Global, modes: ListOf<Mode>) -> Result<ModeSet, AllocError>
    ensures { IfOk result (λ set. set ≡ set_with modes) }
{
    let nodes = three(
        alloc,
        name(alloc, "n0")?,
        name(alloc, "n1")?,
        name(alloc, "n2")?,
    )?;
    Ok(ModeSet {
        slots: 2,
        round: 20,
        gap: 100,
        host: 0,
        nodes,
        modes,
    })
}

fn loop_schedule(alloc: Global) -> Result<Schedule, AllocError>
    ensures { IfOk result (λ s. s ≡ loop_schedule) }
{
    let first = one(alloc, 1)?;
    let second = one(alloc, 0)?;
    Ok(Schedule {
        starts: two(alloc, 0, 23)?,
        tasks: three(alloc, 21, 43, 120)?,
        messages: two(alloc, (23, 43), (48, 120))?,
        tables: two(alloc, first, second)?,
    })
}

fn idle_schedule(alloc: Global) -> Result<Schedule, AllocError>
    ensures { IfOk result (λ s. s ≡ idle_schedule) }
{
    Ok(Schedule {
        starts: one(alloc, 0)?,
        tasks: one(alloc, 0)?,
        messages: none(alloc),
        tables: one(alloc, none(alloc))?,
    })
}

/// Whether the schedules of the loop and of the idle mode are right.
fn are_both_right(set: &ModeSet, plans: &[Schedule]) -> bool
    requires set { set.now ≡ set_with (loop_mode ∷ idle_mode ∷ []) }
    requires plans { plans.now ≡ loop_schedule ∷ idle_schedule ∷ [] }
    ensures rules { KeepsRules set.now }
    ensures right { IsTrue result → AreSchedules set.now plans.now }
{
    if verify(set, 0, &plans[0]).is_err() {
        return false;
    }
    verify(set, 1, &plans[1]).is_ok()
}

/// Whether the loop and the idle mode have these entries, and hyperperiods of 100 ticks, and
/// whether these are the nodes of all tasks.
fn have_entries(
    alloc: Global,
    first: &[Entry],
    second: &[Entry],
    nodes: &[u32],
) -> Result<bool, AllocError> {
    let set = set_with(alloc, two(alloc, loop_mode(alloc)?, idle_mode(alloc)?)?)?;
    let plans = [loop_schedule(alloc)?, idle_schedule(alloc)?];
    if !are_both_right(&set, &plans) {
        return Ok(false);
    }
    let cycles = cycles(alloc, &set, &plans)?;
    let hypers = hypers(alloc, &set)?;
    let owners = owners(alloc, &set)?;
    if owners.as_slice() != nodes {
        return Ok(false);
    }
    match cycles.as_slice() {
        [run, idle] => Ok(
            run.as_slice() == first
                && idle.as_slice() == second
                && hypers.as_slice() == [100, 100].as_slice(),
        ),
        _ => Ok(false),
    }
}

/// `sense` is task 0 on node 1, `ctrl` task 1 on node 0 and `act` task 2 on node 2; its run of the
/// instance before starts at 20.
const LOOP: [Entry; 10] = [
    Entry {
        tick: 0,
        action: Action::Beacon { round: 0 },
    },
    Entry {
        tick: 0,
        action: Action::Slot {
            slot: 1,
            message: 1,
        },
    },
    Entry {
        tick: 20,
        action: Action::Start { node: 2, task: 2 },
    },
    Entry {
        tick: 21,
        action: Action::End { node: 2, task: 2 },
    },
    Entry {
        tick: 21,
        action: Action::Start { node: 1, task: 0 },
    },
    Entry {
        tick: 23,
        action: Action::End { node: 1, task: 0 },
    },
    Entry {
        tick: 23,
        action: Action::Beacon { round: 1 },
    },
    Entry {
        tick: 23,
        action: Action::Slot {
            slot: 1,
            message: 0,
        },
    },
    Entry {
        tick: 43,
        action: Action::Start { node: 0, task: 1 },
    },
    Entry {
        tick: 48,
        action: Action::End { node: 0, task: 1 },
    },
];

/// `led` is task 3 on node 2.
const IDLE: [Entry; 3] = [
    Entry {
        tick: 0,
        action: Action::Beacon { round: 0 },
    },
    Entry {
        tick: 0,
        action: Action::Start { node: 2, task: 3 },
    },
    Entry {
        tick: 1,
        action: Action::End { node: 2, task: 3 },
    },
];

#[test]
fn entries_of_two_modes(rt: HostRuntime) -> Result<(), Fail> {
    assert!(rt; have_entries(rt.alloc(), &LOOP, &IDLE, &[1, 0, 2, 2])?);
    Ok(())
}

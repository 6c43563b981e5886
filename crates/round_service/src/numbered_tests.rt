//! Choices for messages by their numbers over the file.

ghost use Rattle.std.specs.Prelude.{◌≡◌, ◌∷◌, [], codes, IfOk};
ghost use Rattle.sched_model.specs.TestModes.{loop_with};
ghost use Rattle.round_service.specs.TestMode.{half};

use crate::{alternatives, diffs_of};
use app_graph::{App, ListOf, Message, Mode, ModeSet, Name, Task};
use std::alloc::{AllocError, Global};
use std::test::Fail;
use tick_num::{Diff, Time};

fn name(alloc: Global, text: &str) -> Result<Name, AllocError>
    ensures { IfOk result (λ n. n ≡ text.now) }
{
    Name::copied(alloc, text.as_bytes())
}

/// A list of one.
fn one<T: Drop>(alloc: Global, item: T) -> Result<ListOf<T>, AllocError>
    ensures { IfOk result (λ list. list ≡ item ∷ []) }
{
    let mut items = Vec::new(alloc);
    items.push(item)?;
    Ok(ListOf::from_vec(items))
}

/// A list of two.
fn two<T: Drop>(alloc: Global, first: T, second: T) -> Result<ListOf<T>, AllocError>
    ensures { IfOk result (λ list. list ≡ first ∷ second ∷ []) }
{
    let mut items = Vec::new(alloc);
    items.push(first)?;
    items.push(second)?;
    Ok(ListOf::from_vec(items))
}

/// A list of three.
fn three<T: Drop>(alloc: Global, first: T, second: T, third: T) -> Result<ListOf<T>, AllocError>
    ensures { IfOk result (λ list. list ≡ first ∷ second ∷ third ∷ []) }
{
    let mut items = Vec::new(alloc);
    items.push(first)?;
    items.push(second)?;
    items.push(third)?;
    Ok(ListOf::from_vec(items))
}

fn task(alloc: Global, text: &str, node: u32, wcet: Time, number: u32) -> Result<Task, AllocError>
    ensures { IfOk result (λ t. t ≡ record { name = text.now; node = node; wcet = wcet; body = codes "tally"; number = number }) }
{
    Ok(Task {
        name: name(alloc, text)?,
        node,
        wcet,
        body: name(alloc, "tally")?,
        number,
    })
}

/// A message from one task to one.
fn message(
    alloc: Global,
    text: &str,
    from: u32,
    to: u32,
    number: u32,
) -> Result<Message, AllocError>
    ensures { IfOk result (λ m. m ≡ record { name = text.now; from = from ∷ []; to = to ∷ []; number = number; copies = 1 }) }
{
    Ok(Message {
        name: name(alloc, text)?,
        from: one(alloc, from)?,
        to: one(alloc, to)?,
        number,
        copies: 1,
    })
}

/// A control loop over three nodes, with the greatest gap `gap`.
fn loop_set(alloc: Global, gap: Time) -> Result<ModeSet, AllocError>
    ensures { IfOk result (λ set. set ≡ loop_with gap) }
{
    let sense = task(alloc, "sense", 1, 2, 0)?;
    let ctrl = task(alloc, "ctrl", 0, 5, 1)?;
    let act = task(alloc, "act", 2, 1, 2)?;
    let first = message(alloc, "m1", 0, 1, 0)?;
    let second = message(alloc, "m2", 1, 2, 1)?;
    let app = App {
        name: name(alloc, "loop")?,
        period: 100,
        deadline: 100,
        tasks: three(alloc, sense, ctrl, act)?,
        messages: two(alloc, first, second)?,
    };
    let mode = Mode {
        name: name(alloc, "run")?,
        apps: one(alloc, app)?,
    };
    let nodes = three(
        alloc,
        name(alloc, "n0")?,
        name(alloc, "n1")?,
        name(alloc, "n2")?,
    )?;
    Ok(ModeSet {
        slots: 2,
        round: 20,
        gap,
        host: 0,
        nodes,
        modes: one(alloc, mode)?,
    })
}

/// A message of period and deadline 50 in a hyperperiod of 100.
fn half_set(alloc: Global) -> Result<ModeSet, AllocError>
    ensures { IfOk result (λ set. set ≡ half) }
{
    let sense = task(alloc, "sense", 0, 2, 0)?;
    let act = task(alloc, "act", 1, 1, 1)?;
    let slow = task(alloc, "slow", 0, 1, 2)?;
    let sent = message(alloc, "m", 0, 1, 0)?;
    let first = App {
        name: name(alloc, "fast")?,
        period: 50,
        deadline: 50,
        tasks: two(alloc, sense, act)?,
        messages: one(alloc, sent)?,
    };
    let second = App {
        name: name(alloc, "rare")?,
        period: 100,
        deadline: 100,
        tasks: one(alloc, slow)?,
        messages: ListOf::from_vec(Vec::new(alloc)),
    };
    let mode = Mode {
        name: name(alloc, "run")?,
        apps: two(alloc, first, second)?,
    };
    Ok(ModeSet {
        slots: 2,
        round: 10,
        gap: 100,
        host: 0,
        nodes: two(alloc, name(alloc, "n0")?, name(alloc, "n1")?)?,
        modes: one(alloc, mode)?,
    })
}

#[test]
fn loop_problem(rt: HostRuntime) -> Result<(), Fail> {
    let set = loop_set(rt.alloc(), 100)?;
    assert_eq!(rt; alternatives(&set, 0, 1, 0, 0, &[]), (1, 3));
    assert_eq!(rt; alternatives(&set, 0, 1, 1, 0, &[]), (1, 3));
    assert_eq!(rt; alternatives(&set, 0, 2, 0, 0, &[]), (1, 6));
    let [opening, closing] = diffs_of(&set, 0, 1, 0, 0, 2);
    assert!(rt; opening == Diff { x: 4, y: 0, c: 100 });
    assert!(rt;
        closing
            == Diff {
                x: 0,
                y: 5,
                c: -120
            }
    );
    Ok(())
}

#[test]
fn second_instance_alternatives(rt: HostRuntime) -> Result<(), Fail> {
    let set = half_set(rt.alloc())?;
    assert_eq!(rt; alternatives(&set, 0, 3, 0, 0, &[]), (1, 6));
    assert_eq!(rt; alternatives(&set, 0, 3, 0, 1, &[2]), (3, 4));
    Ok(())
}

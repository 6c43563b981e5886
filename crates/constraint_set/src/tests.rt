ghost use Rattle.std.specs.Prelude.{◌≡◌, ◌∷◌, [], codes, IfOk};
ghost use Rattle.sched_model.specs.TestModes.{loop_with};

use super::*;
use app_graph::{App, ListOf, Message, Mode, ModeSet, Name, Task};
use std::alloc::{AllocError, Global};
use std::test::Fail;
use tick_num::{Diff, Time};

fn name(alloc: Global, text: &str) -> Result<Name, AllocError>
    ensures { IfOk result (λ n. n ≡ text.now) }
{
    Name::copied(alloc, text.as_bytes())
}

/// A list of one.
fn one<T: Drop>(alloc: Global, item: T) -> Result<ListOf<T>, AllocError>
    ensures { IfOk result (λ list. list ≡ item ∷ []) }
{
    let mut items = Vec::new(alloc);
    items.push(item)?;
    Ok(ListOf::from_vec(items))
}

/// A list of two.
fn two<T: Drop>(alloc: Global, first: T, second: T) -> Result<ListOf<T>, AllocError>
    ensures { IfOk result (λ list. list ≡ first ∷ second ∷ []) }
{
    let mut items = Vec::new(alloc);
    items.push(first)?;
    items.push(second)?;
    Ok(ListOf::from_vec(items))
}

/// A list of three.
fn three<T: Drop>(alloc: Global, first: T, second: T, third: T) -> Result<ListOf<T>, AllocError>
    ensures { IfOk result (λ list. list ≡ first ∷ second ∷ third ∷ []) }
{
    let mut items = Vec::new(alloc);
    items.push(first)?;
    items.push(second)?;
    items.push(third)?;
    Ok(ListOf::from_vec(items))
}

fn task(alloc: Global, text: &str, node: u32, wcet: Time, number: u32) -> Result<Task, AllocError>
    ensures { IfOk result (λ t. t ≡ record { name = text.now; node = node; wcet = wcet; body = codes "tally"; number = number }) }
{
    Ok(Task {
        name: name(alloc, text)?,
        node,
        wcet,
        body: name(alloc, "tally")?,
        number,
    })
}

/// A message from one task to one.
fn message(
    alloc: Global,
    text: &str,
    from: u32,
    to: u32,
    number: u32,
) -> Result<Message, AllocError>
    ensures { IfOk result (λ m. m ≡ record { name = text.now; from = from ∷ []; to = to ∷ []; number = number; copies = 1 }) }
{
    Ok(Message {
        name: name(alloc, text)?,
        from: one(alloc, from)?,
        to: one(alloc, to)?,
        number,
        copies: 1,
    })
}

/// A control loop over three nodes, with the greatest gap `gap`.
fn loop_set(alloc: Global, gap: Time) -> Result<ModeSet, AllocError>
    ensures { IfOk result (λ set. set ≡ loop_with gap) }
{
    let sense = task(alloc, "sense", 1, 2, 0)?;
    let ctrl = task(alloc, "ctrl", 0, 5, 1)?;
    let act = task(alloc, "act", 2, 1, 2)?;
    let first = message(alloc, "m1", 0, 1, 0)?;
    let second = message(alloc, "m2", 1, 2, 1)?;
    let app = App {
        name: name(alloc, "loop")?,
        period: 100,
        deadline: 100,
        tasks: three(alloc, sense, ctrl, act)?,
        messages: two(alloc, first, second)?,
    };
    let mode = Mode {
        name: name(alloc, "run")?,
        apps: one(alloc, app)?,
    };
    let nodes = three(
        alloc,
        name(alloc, "n0")?,
        name(alloc, "n1")?,
        name(alloc, "n2")?,
    )?;
    Ok(ModeSet {
        slots: 2,
        round: 20,
        gap,
        host: 0,
        nodes,
        modes: one(alloc, mode)?,
    })
}

/// Whether the constraint says that variable `x` minus variable `y` is at most `c`.
fn says(diff: Diff, x: u32, y: u32, c: Time) -> bool {
    diff == Diff { x, y, c }
}

#[test]
fn loop_problem(rt: HostRuntime) -> Result<(), Fail> {
    let set = loop_set(rt.alloc(), 100)?;
    let problem = Problem::make(rt.alloc(), &set, 0, 1)?;
    assert_eq!(rt; problem.rounds(), 1);
    assert_eq!(rt; problem.vars(), 8);
    assert_eq!(rt; problem.base().len(), 17);
    assert_eq!(rt; problem.decisions(), 2);
    assert_eq!(rt; problem.alternatives(&[]), (1, 3));
    assert_eq!(rt; problem.alternatives(&[2]), (1, 3));
    let [opening, closing] = problem.chosen_diffs(0, 2);
    assert!(rt; says(opening, 4, 0, 100));
    assert!(rt; says(closing, 0, 5, -120));
    Ok(())
}

#[test]
fn loop_problem_of_two_rounds(rt: HostRuntime) -> Result<(), Fail> {
    let set = loop_set(rt.alloc(), 100)?;
    let problem = Problem::make(rt.alloc(), &set, 0, 2)?;
    assert_eq!(rt; problem.vars(), 9);
    assert_eq!(rt; problem.base().len(), 19);
    assert_eq!(rt; problem.decisions(), 2);
    assert_eq!(rt; problem.alternatives(&[]), (1, 6));
    Ok(())
}

#[test]
fn loads_come_and_go(rt: HostRuntime) -> Result<(), Fail> {
    let mut loads = Loads::reserve(rt.alloc(), 2, 3)?;
    loads.count(Some(2));
    loads.count(None);
    loads.count(Some(2));
    assert_eq!(rt; loads.load(1), 0);
    assert_eq!(rt; loads.load(2), 2);
    assert_eq!(rt; loads.last(), Some(2));
    loads.take_back();
    assert_eq!(rt; loads.load(2), 1);
    assert_eq!(rt; loads.last(), None);
    loads.keep_first(0);
    assert_eq!(rt; loads.load(2), 0);
    Ok(())
}

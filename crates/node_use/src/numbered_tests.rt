//! Pairs of tasks by their numbers over the file.

ghost use Rattle.std.specs.Prelude.{◌≡◌, ◌∷◌, [], codes, IfOk};
ghost use Rattle.sched_model.specs.TestModes.{shared_with};

use crate::{alternatives, diffs_of, pairs};
use app_graph::{App, ListOf, Mode, ModeSet, Name, Task};
use std::alloc::{AllocError, Global};
use std::test::Fail;
use tick_num::{Diff, Time};

fn name(alloc: Global, text: &str) -> Result<Name, AllocError>
    ensures { IfOk result (λ n. n ≡ text.now) }
{
    Name::copied(alloc, text.as_bytes())
}

/// A list of one.
fn one<T: Drop>(alloc: Global, item: T) -> Result<ListOf<T>, AllocError>
    ensures { IfOk result (λ list. list ≡ item ∷ []) }
{
    let mut items = Vec::new(alloc);
    items.push(item)?;
    Ok(ListOf::from_vec(items))
}

/// A list of two.
fn two<T: Drop>(alloc: Global, first: T, second: T) -> Result<ListOf<T>, AllocError>
    ensures { IfOk result (λ list. list ≡ first ∷ second ∷ []) }
{
    let mut items = Vec::new(alloc);
    items.push(first)?;
    items.push(second)?;
    Ok(ListOf::from_vec(items))
}

fn task(alloc: Global, text: &str, node: u32, wcet: Time, number: u32) -> Result<Task, AllocError>
    ensures { IfOk result (λ t. t ≡ record { name = text.now; node = node; wcet = wcet; body = codes "tally"; number = number }) }
{
    Ok(Task {
        name: name(alloc, text)?,
        node,
        wcet,
        body: name(alloc, "tally")?,
        number,
    })
}

/// Two tasks of one node, of periods 4 and 6, of which the second takes `wcet`.
fn shared_set(alloc: Global, wcet: Time) -> Result<ModeSet, AllocError>
    ensures { IfOk result (λ set. set ≡ shared_with wcet) }
{
    let x = task(alloc, "x", 0, 1, 0)?;
    let y = task(alloc, "y", 0, wcet, 1)?;
    let first = App {
        name: name(alloc, "a")?,
        period: 4,
        deadline: 4,
        tasks: one(alloc, x)?,
        messages: ListOf::from_vec(Vec::new(alloc)),
    };
    let second = App {
        name: name(alloc, "b")?,
        period: 6,
        deadline: 6,
        tasks: one(alloc, y)?,
        messages: ListOf::from_vec(Vec::new(alloc)),
    };
    let mode = Mode {
        name: name(alloc, "run")?,
        apps: two(alloc, first, second)?,
    };
    Ok(ModeSet {
        slots: 1,
        round: 3,
        gap: 12,
        host: 0,
        nodes: one(alloc, name(alloc, "n0")?)?,
        modes: one(alloc, mode)?,
    })
}

#[test]
fn pair_alternatives(rt: HostRuntime) -> Result<(), Fail> {
    let alloc = rt.alloc();
    let set = shared_set(alloc, 1)?;
    let listed = pairs(alloc, &set, 0)?;
    assert_eq!(rt; listed.as_slice(), [(0, 1)].as_slice());
    assert_eq!(rt; alternatives(&set, (0, 1)), (-3, 4));
    let [after, before] = diffs_of(&set, 0, 1, (0, 1), -2);
    assert!(rt; after == Diff { x: 1, y: 2, c: 3 });
    assert!(rt; before == Diff { x: 2, y: 1, c: -3 });
    Ok(())
}

#[test]
fn pair_without_alternative(rt: HostRuntime) -> Result<(), Fail> {
    let alloc = rt.alloc();
    let (low, high) = alternatives(&shared_set(alloc, 2)?, (0, 1));
    assert!(rt; low > high);
    Ok(())
}

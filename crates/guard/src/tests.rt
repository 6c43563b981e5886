//! Guards of mode sets with one task.

ghost use Rattle.std.specs.Prelude.{IfOk};
ghost use Rattle.app_graph.specs.Validation.{KeepsRules};

use super::*;
use app_graph::{ListOf, ModeSet, Name, RawApp, RawMode, RawSet, RawTask, validate};
use std::alloc::{AllocError, Global};
use std::test::Fail;

/// A mode with one task, whose period is the gap.
fn mode(alloc: Global, gap: i64) -> Result<RawMode, AllocError> {
    let task = RawTask {
        name: Name::copied(alloc, b"blink")?,
        node: Name::copied(alloc, b"n0")?,
        wcet: 1,
        body: Name::copied(alloc, b"tally")?,
    };
    let app = RawApp {
        name: Name::copied(alloc, b"lamp")?,
        period: gap,
        deadline: gap,
        tasks: ListOf::from_vec(vec![in alloc; task]?),
        messages: ListOf::from_vec(Vec::new(alloc)),
    };
    Ok(RawMode {
        name: Name::copied(alloc, b"run")?,
        apps: ListOf::from_vec(vec![in alloc; app]?),
    })
}

fn raw_set(alloc: Global, slots: i64, round: i64, gap: i64) -> Result<RawSet, AllocError> {
    let node = Name::copied(alloc, b"n0")?;
    let run = mode(alloc, gap)?;
    Ok(RawSet {
        slots,
        round,
        gap,
        host: Name::copied(alloc, b"n0")?,
        nodes: ListOf::from_vec(vec![in alloc; node]?),
        modes: ListOf::from_vec(vec![in alloc; run]?),
    })
}

/// A set with these slots, this round and this gap. `Err` also where it breaks a rule.
fn set_of(alloc: Global, slots: i64, round: i64, gap: i64) -> Result<ModeSet, AllocError>
    ensures { IfOk result KeepsRules }
{
    let raw = raw_set(alloc, slots, round, gap)?;
    match validate(alloc, &raw) {
        Ok(set) => Ok(set),
        Err(_fault) => Err(AllocError),
    }
}

/// A part, a guard with the two parts that need it, and a wake-up.
fn answer(part: i64, guard: (i64, u32, u32), wake: i64) -> Guard {
    Guard {
        part,
        guard: Some(LeastGuard {
            ticks: guard.0,
            first: guard.1,
            second: guard.2,
        }),
        wake,
    }
}

/// The same where no guard is enough.
fn no_guard(part: i64, wake: i64) -> Guard {
    Guard {
        part,
        guard: None,
        wake,
    }
}

#[test]
fn guard_slow_drift(rt: HostRuntime) -> Result<(), Fail> {
    let set = set_of(rt.alloc(), 2, 20, 100)?;
    assert!(rt; least_guard(&set, 100) == answer(6, (1, 0, 1), 1));
    assert!(rt; least_guard(&set, 1) == answer(6, (1, 0, 1), 1));
    Ok(())
}

#[test]
fn guard_fast_drift(rt: HostRuntime) -> Result<(), Fail> {
    let set = set_of(rt.alloc(), 2, 20, 100)?;
    assert!(rt; least_guard(&set, 100_000) == answer(6, (2, 1, 2), 37));
    Ok(())
}

#[test]
fn guard_long_round(rt: HostRuntime) -> Result<(), Fail> {
    let set = set_of(rt.alloc(), 4, 1000, 100_000)?;
    assert!(rt; least_guard(&set, 1000) == answer(200, (2, 4, 0), 400));
    assert!(rt; least_guard(&set, 1) == answer(200, (1, 0, 1), 1));
    assert!(rt; least_guard(&set, 100_000) == no_guard(200, 36_364));
    let longest = set_of(rt.alloc(), 32, 1_000_000_000, 1_000_000_000)?;
    assert!(rt; least_guard(&longest, 1) == answer(30_303_030, (1990, 32, 0), 4000));
    assert!(rt; least_guard(&longest, 100_000) == no_guard(30_303_030, 363_636_364));
    Ok(())
}

#[test]
fn guard_none(rt: HostRuntime) -> Result<(), Fail> {
    let short = set_of(rt.alloc(), 2, 3, 100)?;
    assert!(rt; least_guard(&short, 100) == no_guard(1, 1));
    let empty = set_of(rt.alloc(), 2, 2, 100)?;
    assert!(rt; least_guard(&empty, 1) == no_guard(0, 1));
    let fits = set_of(rt.alloc(), 2, 9, 100)?;
    assert!(rt; least_guard(&fits, 100) == answer(3, (1, 0, 1), 1));
    Ok(())
}

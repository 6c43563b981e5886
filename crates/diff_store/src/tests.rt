//! Small lists with their answers, pops that bring earlier values back, pushes that chains close, a
//! long chain, and many pushes that change nothing.

ghost use Rattle.std.specs.Prelude.{◌≡◌, ℕ, ◌+◌, ◌<◌, ◌≤◌, ◌↔◌, ℤ, length, IfOk, IsTrue};
ghost use Rattle.tick_num.specs.Differences.{MeetsAll};
ghost use Rattle.diff_store.specs.Bounds.{Small};

use super::*;
use std::alloc::{AllocError, Global};
use std::process::Abort;
use std::test::Fail;
use tick_num::Diff;

/// A store without constraints.
fn made(alloc: Global, n: u32, len: usize) -> Result<Store, AllocError>
    ensures variables { IfOk result (λ s. s.variables ≡ n) }
    ensures constraints { IfOk result (λ s. s.constraints ≡ len) }
    ensures size { IfOk result (λ s. length s.list ≡ 0) }
    ensures solvable { IfOk result (λ s. (v : ℕ → ℤ) × MeetsAll v s.list) }
{
    let store = Store::reserve(alloc, n, len)?;
    Ok(store)
}

/// Whether a store over `n` variables takes the constraint.
fn is_fit(n: u32, d: Diff) -> bool
    ensures { IsTrue result ↔ ((d.x < n) × (d.y < n) × Small d) }
{
    d.x < n && d.y < n && -10_000_000_000_000 <= d.c && d.c <= 10_000_000_000_000
}

/// Pushes a constraint with which the list is still solvable.
fn push(rt: &impl Abort, store: &mut Store, n: u32, d: Diff)
    requires room { length store.old.list < store.old.constraints }
    requires variables { store.old.variables ≡ n }
    requires solvable { (v : ℕ → ℤ) × MeetsAll v store.old.list }
    ensures size { length store.new.list ≡ length store.old.list + 1 }
    ensures solvable { (v : ℕ → ℤ) × MeetsAll v store.new.list }
    ensures variables { store.new.variables ≡ store.old.variables }
    ensures constraints { store.new.constraints ≡ store.old.constraints }
{
    assert!(rt; is_fit(n, d));
    let pushed = store.push(d);
    assert!(rt; matches!(pushed, Pushed::Solvable));
}

/// Pushes a constraint that closes a cycle of the expected positions, and pops it.
fn close(rt: &impl Abort, store: &mut Store, n: u32, d: Diff, expected: &[u32])
    requires room { length store.old.list < store.old.constraints }
    requires variables { store.old.variables ≡ n }
    requires solvable { (v : ℕ → ℤ) × MeetsAll v store.old.list }
    ensures size { length store.new.list ≡ length store.old.list }
    ensures solvable { (v : ℕ → ℤ) × MeetsAll v store.new.list }
    ensures variables { store.new.variables ≡ store.old.variables }
    ensures constraints { store.new.constraints ≡ store.old.constraints }
{
    assert!(rt; is_fit(n, d));
    let pushed = store.push(d);
    assert!(rt; matches!(pushed, Pushed::Closed));
    let cycle = store.cycle();
    assert_eq!(rt; cycle.len(), expected.len());
    for position in expected {
        assert!(rt; cycle.contains(position));
    }
    store.pop();
}

/// Pops the last constraint of a solvable list.
fn pop(store: &mut Store)
    requires some { 0 < length store.old.list }
    requires solvable { (v : ℕ → ℤ) × MeetsAll v store.old.list }
    ensures size { length store.new.list + 1 ≡ length store.old.list }
    ensures solvable { (v : ℕ → ℤ) × MeetsAll v store.new.list }
    ensures variables { store.new.variables ≡ store.old.variables }
    ensures constraints { store.new.constraints ≡ store.old.constraints }
{
    store.pop();
}

#[test]
fn small_systems(rt: HostRuntime) -> Result<(), Fail> {
    let mut store = made(rt.alloc(), 3, 2)?;
    assert_eq!(rt; (store.least(0), store.least(1), store.least(2)), (0, 0, 0));
    push(&rt, &mut store, 3, Diff { x: 0, y: 1, c: -3 });
    assert_eq!(rt; (store.least(0), store.least(1)), (0, 3));
    push(&rt, &mut store, 3, Diff { x: 1, y: 0, c: 5 });
    assert_eq!(rt; (store.least(0), store.least(1)), (0, 3));
    pop(&mut store);
    push(&rt, &mut store, 3, Diff { x: 1, y: 0, c: 3 });
    assert_eq!(rt; (store.least(0), store.least(1)), (0, 3));
    pop(&mut store);
    let back = Diff { x: 1, y: 0, c: 2 };
    close(&rt, &mut store, 3, back, &[0, 1]);
    assert_eq!(rt; (store.least(0), store.least(1)), (0, 3));
    pop(&mut store);
    assert_eq!(rt; (store.least(0), store.least(1)), (0, 0));
    close(&rt, &mut store, 3, Diff { x: 0, y: 0, c: -1 }, &[0]);
    assert_eq!(rt; store.least(0), 0);
    Ok(())
}

/// Pushes that would raise a variable of the chain below their own `x`, at once and behind another.
#[test]
fn closed_chains(rt: HostRuntime) -> Result<(), Fail> {
    let mut store = made(rt.alloc(), 5, 5)?;
    push(&rt, &mut store, 5, Diff { x: 0, y: 1, c: -2 });
    push(&rt, &mut store, 5, Diff { x: 1, y: 2, c: -2 });
    close(&rt, &mut store, 5, Diff { x: 2, y: 1, c: 1 }, &[1, 2]);
    push(&rt, &mut store, 5, Diff { x: 3, y: 1, c: 3 });
    push(&rt, &mut store, 5, Diff { x: 3, y: 4, c: -1 });
    close(&rt, &mut store, 5, Diff { x: 2, y: 3, c: -2 }, &[1, 2, 4]);
    assert_eq!(rt; (store.least(1), store.least(2)), (2, 4));
    assert_eq!(rt; (store.least(3), store.least(4)), (0, 1));
    push(&rt, &mut store, 5, Diff { x: 2, y: 3, c: -1 });
    assert_eq!(rt; (store.least(3), store.least(4)), (5, 6));
    pop(&mut store);
    assert_eq!(rt; (store.least(3), store.least(4)), (0, 1));
    Ok(())
}

/// The last step first, so that each push raises all that were raised before.
#[test]
fn long_chain(rt: HostRuntime) -> Result<(), Fail> {
    let mut positions = Vec::new(rt.alloc());
    for i in 0..500 {
        positions.push(i)?;
    }
    let mut store = made(rt.alloc(), 500, 500)?;
    for i in 0..499 {
        push(
            &rt,
            &mut store,
            500,
            Diff {
                x: 498 - i,
                y: 499 - i,
                c: -1,
            },
        );
    }
    for i in 0..500 {
        assert_eq!(rt; store.least(i), i64::from(i));
    }
    let back = Diff {
        x: 499,
        y: 0,
        c: 498,
    };
    close(&rt, &mut store, 500, back, &positions);
    for _i in 0..499_u32 {
        pop(&mut store);
    }
    assert_eq!(rt; store.least(499), 0);
    Ok(())
}

/// Steps that the values take already, again and again.
#[test]
fn redundant_pushes(rt: HostRuntime) -> Result<(), Fail> {
    let mut store = made(rt.alloc(), 500, 4_499)?;
    for i in 0..499 {
        push(
            &rt,
            &mut store,
            500,
            Diff {
                x: i,
                y: i + 1,
                c: -2,
            },
        );
    }
    for _round in 0..1_000 {
        for i in 0..4_000 {
            let x = i % 499;
            push(&rt, &mut store, 500, Diff { x, y: x + 1, c: -1 });
        }
        for _i in 0..4_000_u32 {
            pop(&mut store);
        }
    }
    assert_eq!(rt; store.least(499), 998);
    Ok(())
}

//! Small lists with their answers, and a long chain.

ghost use Rattle.std.specs.Prelude.{◌≡◌, ◌<◌, ◌≤◌, ◌↔◌, length, All, IsTrue};
ghost use Rattle.diff_solver.specs.Bounds.{Small};

use super::*;
use std::process::Abort;
use std::test::Fail;
use tick_num::Diff;

/// Whether `solve` takes the list.
fn is_solvable_over(n: u32, list: &[Diff]) -> bool
    ensures { IsTrue result ↔ All (λ d. (d.x < n) × (d.y < n) × Small d) list.now }
{
    list.iter().all(|d| {
        d.x < n && d.y < n && -10_000_000_000_000 <= d.c && d.c <= 10_000_000_000_000
    })
}

fn solved(rt: &impl Abort, n: u32, list: &[Diff], work: &mut Work) -> Solved
    requires few { n ≤ 768 }
    requires long { length list.now ≤ 15_000 }
    requires variables { n ≤ work.old.variables }
    requires constraints { length list.now ≤ work.old.constraints }
    ensures variables { work.new.variables ≡ work.old.variables }
    ensures constraints { work.new.constraints ≡ work.old.constraints }
{
    assert!(rt; is_solvable_over(n, list));
    solve(n, list, work)
}

#[test]
fn small_systems(rt: HostRuntime) -> Result<(), Fail> {
    let mut work = Work::reserve(rt.alloc(), 3, 2)?;
    assert_eq!(rt; solved(&rt, 3, &[], &mut work), Solved::Least);
    assert_eq!(rt; work.values(), [0, 0, 0].as_slice());

    let forth = Diff { x: 0, y: 1, c: -3 };
    let loose = [forth, Diff { x: 1, y: 0, c: 5 }];
    assert_eq!(rt; solved(&rt, 2, &loose, &mut work), Solved::Least);
    assert_eq!(rt; work.values(), [0, 3].as_slice());

    let tight = [forth, Diff { x: 1, y: 0, c: 3 }];
    assert_eq!(rt; solved(&rt, 2, &tight, &mut work), Solved::Least);
    assert_eq!(rt; work.values(), [0, 3].as_slice());

    let closed = [forth, Diff { x: 1, y: 0, c: 2 }];
    assert_eq!(rt; solved(&rt, 2, &closed, &mut work), Solved::Cycle);
    assert_eq!(rt; work.cycle().len(), 2);
    assert!(rt; work.cycle().contains(&0) && work.cycle().contains(&1));

    let own = [Diff { x: 0, y: 0, c: -1 }];
    assert_eq!(rt; solved(&rt, 1, &own, &mut work), Solved::Cycle);
    assert_eq!(rt; work.cycle(), [0].as_slice());
    Ok(())
}

/// The last step first, so that each round raises one variable more; and then the steps again and
/// again with bounds that they meet.
#[test]
fn long_chain(rt: HostRuntime) -> Result<(), Fail> {
    let mut list = Vec::new(rt.alloc());
    for i in 0..511 {
        list.push(Diff {
            x: 510 - i,
            y: 511 - i,
            c: -1,
        })?;
    }
    for i in 0..14_488 {
        list.push(Diff {
            x: i % 511 + 1,
            y: i % 511,
            c: 1 + i64::from(i % 7),
        })?;
    }
    let mut work = Work::reserve(rt.alloc(), 512, 15_000)?;
    assert!(rt; list.len() < 15_000);
    assert_eq!(rt; solved(&rt, 512, &list, &mut work), Solved::Least);
    assert_eq!(rt; work.values().len(), 512);
    for (i, value) in work.values().iter().enumerate() {
        assert_eq!(rt; *value, i as i64);
    }

    list.push(Diff {
        x: 511,
        y: 0,
        c: 510,
    })?;
    assert!(rt; list.len() <= 15_000);
    assert_eq!(rt; solved(&rt, 512, &list, &mut work), Solved::Cycle);
    assert_eq!(rt; work.cycle().len(), 512);
    assert!(rt; work.cycle().contains(&14_999));
    Ok(())
}

//! Pairs of tasks whose periods differ.

ghost use Rattle.std.specs.Prelude.{◌≡◌};

use super::*;
use tick_num::Diff;

/// A task whose deadline is its period.
fn task(period: u64, wcet: u64) -> TaskTimes
    ensures { result ≡ record { period = period; deadline = period; wcet = wcet } }
{
    TaskTimes {
        period,
        deadline: period,
        wcet,
    }
}

#[test]
fn pair_alternatives(rt: HostRuntime) {
    let first = task(4, 1);
    let second = task(6, 1);
    assert_eq!(rt; places_of(first, second), (-3, 4));
    let divisor = divisor_of(first, second);
    assert_eq!(rt; divisor, 2);
    let [after, before] = order_diffs(1, 2, first, second, divisor, -2);
    assert!(rt; after == Diff { x: 1, y: 2, c: 3 });
    assert!(rt; before == Diff { x: 2, y: 1, c: -3 });
}

#[test]
fn pair_without_alternative(rt: HostRuntime) {
    assert_eq!(rt; places_of(task(4, 1), task(6, 2)), (1, 0));
}

//! Constraints with their bounds, out of durations in ticks.

ghost use Rattle.std.specs.Prelude.{◌≡◌, ◌≤◌, pos, neg_ℤ, ◌-ℤ◌};
ghost use Rattle.tick_num.specs.Differences.{diff};

use tick_num::Diff;

/// `x - y` is at most `most` ticks.
pub(crate) fn at_most(x: u32, y: u32, most: u64) -> Diff
    requires { most ≤ 2000000000000 }
    ensures { result ≡ diff x y (pos most) }
{
    Diff {
        x,
        y,
        c: most as i64,
    }
}

/// `y - x` is at least `least` ticks.
pub(crate) fn at_least(x: u32, y: u32, least: u64) -> Diff
    requires { least ≤ 2000000000000 }
    ensures { result ≡ diff x y (neg_ℤ (pos least)) }
{
    Diff {
        x,
        y,
        c: -(least as i64),
    }
}

/// `x - y` is at most `most` ticks less `less` ticks.
pub(crate) fn at_most_less(x: u32, y: u32, most: u64, less: u64) -> Diff
    requires most { most ≤ 2000000000000 }
    requires less { less ≤ 2000000000000 }

    ensures { result ≡ diff x y (pos most -ℤ pos less) }
{
    Diff {
        x,
        y,
        c: most as i64 - less as i64,
    }
}

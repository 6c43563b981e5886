//! How early a node wakes for a beacon, without signs. No call takes memory.

ghost use Rattle.std.specs.Prelude.{◌≤◌};
ghost use Rattle.guard.specs.Waking.{IsLeastWake};

use crate::parts::MILLION;

/// The least number of ticks by which a node wakes early that may have missed one beacon.
pub(crate) fn least_wake(gap: u64, drift: u64) -> u64
    requires gap { gap ≤ 1000000000 }
    requires drift { drift ≤ 100000 }
    ensures least { IsLeastWake gap drift result }
    ensures within { result ≤ gap }
{
    (4 * gap * drift).div_ceil(MILLION + drift)
}

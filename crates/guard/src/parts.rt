//! The guard of a round's parts, without signs. No call takes memory.

ghost use Rattle.std.specs.Prelude.{◌≡◌, ◌≤◌, ◌<◌, ◌+◌, ◌-◌, ◌*◌};
ghost use Rattle.guard.specs.Parts.{part_ticks};
ghost use Rattle.guard.specs.Bounds.{IsLimited, IsEnough, Clears, Separates, IsLeastOf, IsFirstOpen};

/// A tick in millionths of a tick.
pub(crate) const MILLION: u64 = 1_000_000;

/// A round, and how far the clocks of its nodes drift.
#[derive(Clone, Copy, Drop)]
pub(crate) struct Round {
    /// The number of its slots.
    pub(crate) slots: u64,
    /// How long it lasts, in ticks.
    pub(crate) ticks: u64,
    /// By how many millionths of a tick a tick may be longer or shorter.
    pub(crate) drift: u64,
}

/// How many ticks a part has: the beacon, or a slot.
pub(crate) fn part_ticks(round: Round) -> u64
    requires { IsLimited round }
    ensures value { result ≡ part_ticks round }
    ensures within { (round.slots + 1) * result ≤ round.ticks }
{
    round.ticks / (round.slots + 1)
}

/// By how much a clock may be off when the last slot begins, in millionths of a tick.
fn drift_of_slots(round: Round) -> u64
    requires { IsLimited round }
    ensures value { result ≡ round.slots * part_ticks round * round.drift }
    ensures within { result ≤ 100000000000000 }
{
    round.slots * part_ticks(round) * round.drift
}

/// How long the parts of a round last by the slowest clock, in millionths of a tick.
fn slowest_parts(round: Round) -> u64
    requires { IsLimited round }
    ensures value { result ≡ (round.slots + 1) * part_ticks round * (1000000 + round.drift) }
    ensures within { result ≤ 1100000000000000 }
{
    (round.slots + 1) * part_ticks(round) * (MILLION + round.drift)
}

/// How long a round lasts by the fastest clock, in millionths of a tick.
fn fastest_round(round: Round) -> u64
    requires { IsLimited round }
    ensures value { result ≡ round.ticks * (1000000 - round.drift) }
    ensures within { result ≤ 1000000000000000 }
{
    round.ticks * (MILLION - round.drift)
}

/// The least guard that keeps each part apart from the next one.
fn guard_of_parts(round: Round) -> u64
    requires { IsLimited round }
    ensures { IsLeastOf (Separates round) result }
{
    drift_of_slots(round).div_ceil(MILLION)
}

/// The least guard that keeps the last part apart from the next round's beacon.
fn guard_of_beacon(round: Round) -> u64
    requires { IsLimited round }
    ensures { IsLeastOf (Clears round) result }
{
    let late = slowest_parts(round).saturating_sub(fastest_round(round));
    late.div_ceil(MILLION + round.drift)
}

/// The least guard that does both, whether or not the parts have room for it.
pub(crate) fn least_ticks(round: Round) -> u64
    requires { IsLimited round }
    ensures { IsLeastOf (IsEnough round) result }
{
    guard_of_parts(round).max(guard_of_beacon(round))
}

/// The first part that overlaps what comes after it under a guard that is too small, and what that
/// is: the next part, or 0 for the next round's beacon.
pub(crate) fn first_overlap(round: Round, guard: u64) -> (u64, u64)
    requires round { IsLimited round }
    requires room { 2 * guard < part_ticks round }
    ensures { IsFirstOpen round guard result.0 result.1 }
{
    let part = part_ticks(round);
    let first = guard * MILLION / (part * round.drift);
    if first < round.slots {
        (first, first + 1)
    } else {
        (round.slots, 0)
    }
}

//! The guard of a mode set.

ghost use Rattle.std.specs.Prelude.{◌≡◌, ◌≤◌, IfSome, IfNone, ℕ, unsigned_abs};
ghost use Rattle.app_graph.specs.Validation.{KeepsRules};
ghost use Rattle.guard.specs.Bounds.{IsLimited};
ghost use Rattle.guard.specs.Guards.{IsGuard, IsLeastGuard, Keeps, round_of};
ghost use Rattle.guard.specs.Parts.{part_ticks};

use crate::parts::{Round, first_overlap, least_ticks, part_ticks};
use crate::waking::least_wake;
use app_graph::ModeSet;
use tick_num::Time;

/// The least guard under which no two parts overlap, and the first two that do under one tick less.
#[derive(Clone, Copy, Debug, PartialEq, Eq, Drop)]
pub struct LeastGuard {
    /// The guard, in ticks, at least 1.
    pub ticks: Time,
    /// The part that ends too late: 0 is the beacon, `s` the slot of this number.
    pub first: u32,
    /// The part that comes after it; 0 is the next round's beacon.
    pub second: u32,
}

/// What drift asks of the rounds and the nodes of a mode set.
#[derive(Clone, Copy, Debug, PartialEq, Eq, Drop)]
pub struct Guard {
    /// How long a part of a round is, in ticks.
    pub part: Time,
    /// The least guard; none where no guard within a part is enough.
    pub guard: Option<LeastGuard>,
    /// How many ticks early a node wakes for a beacon, at least.
    pub wake: Time,
}

/// The guard, where the parts have room for it on both sides.
fn guard_within(round: Round, part: u64) -> Option<LeastGuard>
    requires round { IsLimited round }
    requires part { part ≡ part_ticks round }
    ensures some { IfSome result (IsLeastGuard round) }
    ensures none { IfNone result ((guard : ℕ) → Keeps round guard → ⊥) }
{
    let ticks = least_ticks(round);
    if part <= 2 * ticks {
        return None;
    }
    let (first, second) = first_overlap(round, ticks - 1);
    Some(LeastGuard {
        ticks: ticks as i64,
        first: first as u32,
        second: second as u32,
    })
}

/// A round of the set, with clocks of this drift.
fn round_of(set: &ModeSet, ppm: u32) -> Round
    ensures { result ≡ round_of set.now ppm }
{
    Round {
        slots: set.slots as u64,
        ticks: set.round.unsigned_abs(),
        drift: ppm as u64,
    }
}

/// The greatest time from one beacon to the next, in ticks.
fn gap_of(set: &ModeSet) -> u64
    ensures { result ≡ unsigned_abs set.now.gap }
{
    set.gap.unsigned_abs()
}

/// The least guard where clocks drift by so many millionths, from 1 to 100,000, and how early a node
/// wakes for a beacon. Takes no memory.
///
/// `docs/GUARD.md` says what the parts of a round, the guard and the wake-up are.
pub fn least_guard(set: &ModeSet, ppm: u32) -> Guard
    requires rules { KeepsRules set.now }
    requires drift { (1 ≤ ppm) × (ppm ≤ 100000) }
    ensures { IsGuard (round_of set.now ppm) (unsigned_abs set.now.gap) result }
{
    let round = round_of(set, ppm);
    let part = part_ticks(round);
    Guard {
        part: part as i64,
        guard: guard_within(round, part),
        wake: least_wake(gap_of(set), round.drift) as i64,
    }
}

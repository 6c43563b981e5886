//! The clauses on the rounds' starts. No call takes memory.

ghost use Rattle.std.specs.Prelude.{◌≡◌, ◌↔◌, ℕ, ◌<◌, ◌≤◌, IsTrue, length};
ghost use Rattle.app_graph.specs.Validation.{KeepsRules};
ghost use Rattle.sched_model.specs.Judged.{GapHolds, IsCase, RoundEnds};
ghost use Rattle.sched_model.specs.PlainMode.{hyper, plain_at};
ghost use Rattle.sched_model.specs.RightSchedule.{GapsFit, RoundsFit};

use crate::schedule::Schedule;
use crate::schedule_times::{round_count, round_start};
use app_graph::ModeSet;

/// The length of a round, in ticks.
pub(crate) fn round_of(set: &ModeSet, mode: u32) -> u64
    requires rules { KeepsRules set.now }
    requires mode { mode < length set.now.modes }
    ensures value { result ≡ (plain_at set.now mode).round }
    ensures least { 1 ≤ result }
    ensures most { result ≤ 1000000000 }
{
    set.round.unsigned_abs()
}

/// The greatest time from one round's start to the next one's, in ticks.
fn gap_of(set: &ModeSet, mode: u32) -> u64
    requires rules { KeepsRules set.now }
    requires mode { mode < length set.now.modes }
    ensures value { result ≡ (plain_at set.now mode).gap }
    ensures most { result ≤ 1000000000 }
{
    set.gap.unsigned_abs()
}

/// Whether the round at the place ends before the next one starts, or with the hyperperiod.
fn ends_in_time(set: &ModeSet, mode: u32, s: &Schedule, ticks: u64, place: usize) -> bool
    requires case { IsCase set.now mode s.now }
    requires ticks { ticks ≡ hyper (plain_at set.now mode) }
    requires place { place < length s.now.starts }
    ensures { IsTrue result ↔ RoundEnds (plain_at set.now mode) s.now place }
{
    let end = round_start(s, place) + round_of(set, mode);
    if place < round_count(s) - 1 {
        return end <= round_start(s, place + 1);
    }
    end <= ticks
}

/// Whether each round ends before the next one starts, or with the hyperperiod.
fn end_in_time(set: &ModeSet, mode: u32, s: &Schedule, ticks: u64) -> bool
    requires case { IsCase set.now mode s.now }
    requires ticks { ticks ≡ hyper (plain_at set.now mode) }
    ensures { IsTrue result ↔ ((j : ℕ) → j < length s.now.starts → RoundEnds (plain_at set.now mode) s.now j) }
{
    for place in 0..round_count(s) {
        if !ends_in_time(set, mode, s, ticks, place) {
            return false;
        }
    }
    true
}

/// Whether the rounds begin at 0, do not overlap, and end with the hyperperiod of so many ticks.
pub(crate) fn rounds_fit(set: &ModeSet, mode: u32, s: &Schedule, ticks: u64) -> bool
    requires case { IsCase set.now mode s.now }
    requires ticks { ticks ≡ hyper (plain_at set.now mode) }
    ensures { IsTrue result ↔ RoundsFit (plain_at set.now mode) s.now }
{
    if round_start(s, 0) != 0 {
        return false;
    }
    end_in_time(set, mode, s, ticks)
}

/// Whether the round after the one at the place starts within the greatest gap.
fn gap_holds(set: &ModeSet, mode: u32, s: &Schedule, ticks: u64, place: usize) -> bool
    requires case { IsCase set.now mode s.now }
    requires ticks { ticks ≡ hyper (plain_at set.now mode) }
    requires place { place < length s.now.starts }
    ensures { IsTrue result ↔ GapHolds (plain_at set.now mode) s.now place }
{
    let latest = round_start(s, place) + gap_of(set, mode);
    if place < round_count(s) - 1 {
        return round_start(s, place + 1) <= latest;
    }
    ticks <= latest
}

/// Whether no round starts later than the greatest gap after the one before, over the hyperperiod's end too.
pub(crate) fn gaps_fit(set: &ModeSet, mode: u32, s: &Schedule, ticks: u64) -> bool
    requires case { IsCase set.now mode s.now }
    requires ticks { ticks ≡ hyper (plain_at set.now mode) }
    ensures { IsTrue result ↔ GapsFit (plain_at set.now mode) s.now }
{
    for place in 0..round_count(s) {
        if !gap_holds(set, mode, s, ticks, place) {
            return false;
        }
    }
    true
}

//! Which copy of its window a slot carries.

ghost use Rattle.std.specs.Prelude.{◌≡◌, [], ◌+◌, ◌<◌, ◌≤◌, All, length, slice_index_or};
ghost use Rattle.sched_model.specs.Numbers.{has};
ghost use Rattle.sched_model.specs.ServedCounts.{one_if};
ghost use Rattle.sched_model.specs.TimeLimits.{HasTimes};
ghost use Rattle.runtime_model.specs.Copies.{copy_of};
ghost use Rattle.node_tables.specs.OwnParts.{counted_at};
ghost use Rattle.node_tables.specs.PartLimits.{FewSlots};

use crate::reader::is_between;
use sched_model::Schedule;
use tick_num::Time;

/// The table of the round at the place.
pub(crate) fn table_of(schedule: &Schedule, round: usize) -> &[u32]
    requires round { round < length schedule.now.starts }
    requires tables { length schedule.now.tables ≡ length schedule.now.starts }
    requires few { All FewSlots schedule.now.tables }
    ensures table { result.now ≡ slice_index_or schedule.now.tables round [] }
    ensures few { length result.now ≤ 32 }
{
    schedule.tables.as_slice()[round].as_slice()
}

/// Whether the number is listed.
fn has(numbers: &[u32], number: u32) -> bool
    ensures { result ≡ has numbers.now number }
{
    numbers.iter().any(|listed| number == *listed)
}

/// How many of two things hold.
fn count_of(first: bool, second: bool) -> u8
    ensures { result ≡ one_if first + one_if second }
{
    u8::from(first) + u8::from(second)
}

/// How many copies between these moments are in the round at the place: one of this hyperperiod, one of that before.
fn copies_in(
    schedule: &Schedule,
    hyper: u64,
    number: u32,
    opened: Time,
    start: Time,
    round: usize,
) -> u8
    requires round { round < length schedule.now.starts }
    requires tables { length schedule.now.tables ≡ length schedule.now.starts }
    requires slots { All FewSlots schedule.now.tables }
    requires times { HasTimes schedule.now }
    requires hyper { hyper ≤ 1000000000000 }
    ensures { result ≡ counted_at schedule.now hyper number opened start round }
{
    let at = schedule.starts.as_slice()[round];
    let now = is_between(opened, at, start);
    let before = is_between(opened, at - hyper as i64, start);
    let copies = count_of(before, now);
    if copies == 0 {
        return 0;
    }
    if !has(table_of(schedule, round), number) {
        return 0;
    }
    copies
}

/// The copy that a slot at `start` carries, of a window that opened at `opened`: how many rounds with the message have started in it.
pub(crate) fn copy_of(schedule: &Schedule, hyper: u64, number: u32, opened: Time, start: Time) -> u8
    requires tables { length schedule.now.tables ≡ length schedule.now.starts }
    requires slots { All FewSlots schedule.now.tables }
    requires times { HasTimes schedule.now }
    requires hyper { hyper ≤ 1000000000000 }
    requires few { copy_of schedule.now hyper number opened start ≤ 4 }
    ensures { result ≡ copy_of schedule.now hyper number opened start }
{
    let mut copies = 0;
    for round in 0..schedule.starts.as_slice().len() {
        copies += copies_in(schedule, hyper, number, opened, start, round);
    }
    copies
}

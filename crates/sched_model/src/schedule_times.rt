//! The times of a schedule by place, in ticks. No call takes memory.

ghost use Rattle.std.specs.Prelude.{◌≡◌, ◌<◌, ◌≤◌, length, pos};
ghost use Rattle.sched_model.specs.Rounds.{closes, opens, round_start, task_start};
ghost use Rattle.sched_model.specs.TimeLimits.{HasTimes, IsTime};

use crate::schedule::Schedule;
use tick_num::Time;

/// The time without its sign.
fn ticks(time: Time) -> u64
    requires { IsTime time }
    ensures value { pos result ≡ time }
    ensures most { result ≤ 2000000000000 }
{
    time.unsigned_abs()
}

/// How many rounds the schedule has.
pub(crate) fn round_count(s: &Schedule) -> usize
    ensures { result ≡ length s.now.starts }
{
    s.starts.as_slice().len()
}

/// The start of the round at the place.
pub(crate) fn round_start(s: &Schedule, place: usize) -> u64
    requires times { HasTimes s.now }
    requires place { place < length s.now.starts }
    ensures value { pos result ≡ round_start s.now place }
    ensures most { result ≤ 2000000000000 }
{
    ticks(s.starts.as_slice()[place])
}

/// The start of the first run of the task at the place.
pub(crate) fn task_start(s: &Schedule, place: usize) -> u64
    requires times { HasTimes s.now }
    requires place { place < length s.now.tasks }
    ensures value { pos result ≡ task_start s.now place }
    ensures most { result ≤ 2000000000000 }
{
    ticks(s.tasks.as_slice()[place])
}

/// Where the first window of the message at the place opens.
pub(crate) fn opens(s: &Schedule, place: usize) -> u64
    requires times { HasTimes s.now }
    requires place { place < length s.now.messages }
    ensures value { pos result ≡ opens s.now place }
    ensures most { result ≤ 2000000000000 }
{
    let (opens, _) = s.messages.as_slice()[place];
    ticks(opens)
}

/// Where it closes.
pub(crate) fn closes(s: &Schedule, place: usize) -> u64
    requires times { HasTimes s.now }
    requires place { place < length s.now.messages }
    ensures value { pos result ≡ closes s.now place }
    ensures most { result ≤ 2000000000000 }
{
    let (_, closes) = s.messages.as_slice()[place];
    ticks(closes)
}

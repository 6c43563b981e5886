//! Numbers of a mode: its hyperperiod, the slots that it needs and the most rounds. No call takes memory.

ghost use Rattle.std.specs.Prelude.{◌≡◌, ◌*◌, ◌/◌, ◌<◌, ◌≤◌, All, fold, length, map, pos, sum_by, unsigned_abs, ◌<ℤ◌};
ghost use Rattle.app_graph.specs.Hyperperiod.{lcm};
ghost use Rattle.app_graph.specs.Validation.{KeepsRules};
ghost use Rattle.sched_model.specs.PlainMode.{hyper, instances, most_rounds, plain_at};
ghost use Rattle.sched_model.specs.Rows.{slots_by};

use crate::rows::apps_of;
use app_graph::{App, Message, ModeSet};
use tick_num::{Time, lcm_up_to};

/// The least common multiple of the two, which is within the limit of a hyperperiod.
fn joined(hyper: u64, period: i64) -> u64
    requires hyper { (0 < hyper) × (hyper ≤ 1000000000000) }
    requires period { pos 0 <ℤ period }
    requires limit { lcm hyper (unsigned_abs period) ≤ 1000000000000 }
    ensures { result ≡ lcm hyper (unsigned_abs period) }
{
    match lcm_up_to(hyper as i64, period, 1_000_000_000_000) {
        Some(multiple) => multiple.unsigned_abs(),
        None => hyper,
    }
}

/// The least common multiple of the periods of applications, which is within the limit of a hyperperiod.
fn hyper_of(apps: &[App]) -> u64
    requires periods { All (λ a. pos 0 <ℤ a.period) apps.now }
    requires limit { fold lcm 1 (map (λ a. unsigned_abs a.period) apps.now) ≤ 1000000000000 }
    ensures { result ≡ fold lcm 1 (map (λ a. unsigned_abs a.period) apps.now) }
{
    let mut hyper = 1;
    for app in apps {
        hyper = joined(hyper, app.period);
    }
    hyper
}

/// How many slots the messages need, where each of their copies comes `each` times; they are within the limit of a mode.
fn copies_in(messages: &[Message], each: u64) -> u64
    requires { sum_by (λ m. m.copies * each) messages.now ≤ 512 }
    ensures { result ≡ sum_by (λ m. m.copies * each) messages.now }
{
    let mut total = 0;
    for message in messages {
        total += u64::from(message.copies) * each;
    }
    total
}

/// How many slots the messages of the application need in `hyper` ticks, which are within the limit of a mode.
#[tactic(auto, unfolding(crate::specs::Rows::slots_by))]
fn slots_of(app: &App, hyper: u64) -> u64
    requires period { pos 0 <ℤ app.now.period }
    requires limit { slots_by hyper app.now ≤ 512 }
    ensures { result ≡ slots_by hyper app.now }
{
    copies_in(app.messages.as_slice(), hyper / app.period.unsigned_abs())
}

/// How many slots the messages of the applications need in `hyper` ticks, which are within their limit.
fn instances_in(apps: &[App], hyper: u64) -> u64
    requires periods { All (λ a. pos 0 <ℤ a.period) apps.now }
    requires limit { sum_by (slots_by hyper) apps.now ≤ 512 }
    ensures { result ≡ sum_by (slots_by hyper) apps.now }
{
    let mut total = 0;
    for app in apps {
        total += slots_of(app, hyper);
    }
    total
}

/// The hyperperiod of the mode, in ticks.
pub(crate) fn ticks_of(set: &ModeSet, mode: u32) -> u64
    requires rules { KeepsRules set.now }
    requires mode { mode < length set.now.modes }
    ensures value { result ≡ hyper (plain_at set.now mode) }
    ensures limit { result ≤ 1000000000000 }
{
    hyper_of(apps_of(set, mode))
}

/// The hyperperiod of the mode of this number, in ticks: the least common multiple of its periods.
pub fn hyper(set: &ModeSet, mode: u32) -> Time
    requires rules { KeepsRules set.now }
    requires mode { mode < length set.now.modes }
    ensures { result ≡ pos (hyper (plain_at set.now mode)) }
{
    ticks_of(set, mode) as i64
}

/// How many slots the messages of the mode need in a hyperperiod, all together: in each window one for each copy.
pub fn instances(set: &ModeSet, mode: u32) -> u64
    requires rules { KeepsRules set.now }
    requires mode { mode < length set.now.modes }
    ensures { result ≡ instances (plain_at set.now mode) }
{
    let ticks = ticks_of(set, mode);
    instances_in(apps_of(set, mode), ticks)
}

/// The most rounds that a hyperperiod of the mode has room for.
pub fn most_rounds(set: &ModeSet, mode: u32) -> u64
    requires rules { KeepsRules set.now }
    requires mode { mode < length set.now.modes }
    ensures { result ≡ most_rounds (plain_at set.now mode) }
{
    ticks_of(set, mode) / set.round.unsigned_abs()
}

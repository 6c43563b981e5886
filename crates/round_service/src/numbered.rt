//! The alternatives of a message's copies and the constraints of a choice, where messages go by their numbers over the file.
//! No call takes memory.

ghost use Rattle.std.specs.Prelude.{◌≡◌, ℕ, ℤ, List, ◌+◌, ◌*◌, ◌/◌, ◌<◌, ◌≤◌, All, length, pos, ◌≤ℤ◌};
ghost use Rattle.app_graph.specs.Validation.{KeepsRules};
ghost use Rattle.sched_model.specs.ConstraintProblem.{alternatives_of, chosen, serve};
ghost use Rattle.sched_model.specs.Numbered.{IsMessageOf};
ghost use Rattle.sched_model.specs.Numbers.{span};
ghost use Rattle.sched_model.specs.PlainMode.{hyper, copy_count, message_at, plain_at};
ghost use Rattle.round_service.specs.Serving.{IsServable, Shows};

use crate::choices::{MessageTimes, first_choices, later_choices, serve_diffs};
use crate::laws::choices_are_decisions;
use app_graph::ModeSet;
use sched_model::laws::{kept_modes_are_limited, kept_modes_are_valid};
use sched_model::{hyper, message_place, message_row, tasks};
use tick_num::Diff;

/// The hyperperiod of the mode, in ticks.
fn ticks_of(set: &ModeSet, mode: u32) -> u64
    requires rules { KeepsRules set.now }
    requires mode { mode < length set.now.modes }
    ensures { result ≡ hyper (plain_at set.now mode) }
{
    hyper(set, mode).unsigned_abs()
}

/// The length of a round, in ticks.
fn round_of(set: &ModeSet, mode: u32) -> u64
    ensures { result ≡ (plain_at set.now mode).round }
{
    set.round.unsigned_abs()
}

/// What the choices for the message at the place of the mode depend on, for so many rounds.
fn times_at(set: &ModeSet, mode: u32, rounds: u64, place: u32) -> MessageTimes
    requires rules { KeepsRules set.now }
    requires mode { mode < length set.now.modes }
    requires rounds { (1 ≤ rounds) × (rounds ≤ 256) }
    requires place { place < length (plain_at set.now mode).messages }
    ensures shows { Shows (plain_at set.now mode) rounds place result }
    ensures servable { IsServable result }
{
    kept_modes_are_limited();
    kept_modes_are_valid();
    let row = message_row(set, mode, place);
    MessageTimes {
        rounds,
        round: round_of(set, mode),
        hyper: ticks_of(set, mode),
        period: row.period,
        deadline: row.deadline,
        copies: row.copies,
    }
}

/// The alternatives of the first copy of the message.
fn first_of(set: &ModeSet, mode: u32, rounds: u64, message: u32) -> (i64, i64)
    requires rules { KeepsRules set.now }
    requires rounds { (1 ≤ rounds) × (rounds ≤ 256) }
    requires message { (a : ℕ) × IsMessageOf set.now mode a message }
    ensures { (a : ℕ) (p : List ℤ) → IsMessageOf set.now mode a message → span result.0 result.1 ≡ alternatives_of (plain_at set.now mode) rounds (serve a 0) p }
{
    choices_are_decisions();
    let place = message_place(set, mode, message);
    first_choices(times_at(set, mode, rounds, place))
}

/// The alternatives of copy `i` of the message, from 0, counted over the windows of a hyperperiod: the least and the greatest round instance. There is none where the least is
/// above the greatest. `chosen` has the choices for the copies of the message before it. A hyperperiod has so many rounds, from 1 to 256.
pub fn alternatives(
    set: &ModeSet,
    mode: u32,
    rounds: u64,
    message: u32,
    i: u64,
    chosen: &[i64],
) -> (i64, i64)
    requires rules { KeepsRules set.now }
    requires rounds { (1 ≤ rounds) × (rounds ≤ 256) }
    requires message { (a : ℕ) × IsMessageOf set.now mode a message }
    requires before { length chosen.now ≡ i }
    requires choices { All (λ g. (pos 1 ≤ℤ g) × (g ≤ℤ pos 1000000000000000)) chosen.now }
    ensures { (a : ℕ) → IsMessageOf set.now mode a message → span result.0 result.1 ≡ alternatives_of (plain_at set.now mode) rounds (serve a i) chosen.now }
{
    if i == 0 {
        return first_of(set, mode, rounds, message);
    }
    later_choices(rounds, chosen[chosen.len() - 1], chosen[0])
}

/// The two constraints of the choice `g` for copy `i` of the message, in the variables of the mode's constraint problem for so many
/// rounds, from 1 to 256.
pub fn diffs_of(set: &ModeSet, mode: u32, rounds: u64, message: u32, i: u64, g: i64) -> [Diff; 2]
    requires rules { KeepsRules set.now }
    requires rounds { (1 ≤ rounds) × (rounds ≤ 256) }
    requires message { (a : ℕ) × IsMessageOf set.now mode a message }
    requires copy { (a : ℕ) → IsMessageOf set.now mode a message
        → i < copy_count (plain_at set.now mode) (message_at (plain_at set.now mode) a) }
    requires least { pos 1 ≤ℤ g }
    requires most { (a : ℕ) → IsMessageOf set.now mode a message → g ≤ℤ pos (rounds * (((message_at (plain_at set.now mode) a).period + (message_at (plain_at set.now mode) a).deadline) / hyper (plain_at set.now mode) + 2)) }
    ensures { (a : ℕ) → IsMessageOf set.now mode a message → result ≡ chosen (plain_at set.now mode) rounds (serve a i) g }
{
    choices_are_decisions();
    let place = message_place(set, mode, message);
    let times = times_at(set, mode, rounds, place);
    let opens = rounds as u32 + tasks(set, mode) + 2 * place;
    serve_diffs(opens, opens + 1, times, i, g)
}

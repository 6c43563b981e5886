//! Choices of round instances for the copies of a message, over plain numbers. No call takes memory.

ghost use Rattle.std.specs.Prelude.{◌≡◌, ◌+◌, ◌*◌, ◌/◌, ◌<◌, ◌≤◌, All, count_by, length, pos, negsuc, neg_ℤ, ◌+ℤ◌, ◌-ℤ◌, ◌≤ℤ◌};
ghost use Rattle.round_service.specs.Serving.{IsServable, most_choice, names_round, round_named, served};

use tick_num::Diff;

/// What the choices for a message depend on. Durations are in ticks.
#[derive(Clone, Copy, Debug, PartialEq, Eq, Drop)]
pub struct MessageTimes {
    /// How many rounds a hyperperiod has, from 1 to 256.
    pub rounds: u64,
    /// The length of a round, from 1 to 1,000,000,000.
    pub round: u64,
    /// The hyperperiod, from 1 to 1,000,000,000,000.
    pub hyper: u64,
    /// The message's period, from 1 to 1,000,000,000.
    pub period: u64,
    /// Its deadline, at most 1,000,000,000,000.
    pub deadline: u64,
    /// How many round instances of a window carry it, at least 1.
    pub copies: u32,
}

/// The alternatives of a message's first copy in a hyperperiod: the least and the greatest round instance.
pub fn first_choices(times: MessageTimes) -> (i64, i64)
    requires { IsServable times }
    ensures low { result.0 ≡ pos 1 }
    ensures high { result.1 ≡ pos (times.rounds * ((times.period + times.deadline) / times.hyper + 1)) }
{
    let hyperperiods = (times.period + times.deadline) / times.hyper + 1;
    (1, (times.rounds * hyperperiods) as i64)
}

/// The alternatives of a later copy, after the choice `previous` for the copy before and `first` for the first one:
/// the least and the greatest round instance. There is none where the least is above the greatest.
pub fn later_choices(rounds: u64, previous: i64, first: i64) -> (i64, i64)
    requires rounds { rounds ≤ 256 }
    requires previous { (pos 1 ≤ℤ previous) × (previous ≤ℤ pos 1000000000000000) }
    requires first { (pos 1 ≤ℤ first) × (first ≤ℤ pos 1000000000000000) }
    ensures low { result.0 ≡ previous +ℤ pos 1 }
    ensures high { result.1 ≡ first +ℤ pos rounds -ℤ pos 1 }
{
    (previous + 1, first + rounds as i64 - 1)
}

/// The round, from 1, that the choice `g` names where a hyperperiod has so many rounds.
pub fn round_of_choice(g: i64, rounds: u64) -> u64
    requires choice { pos 1 ≤ℤ g }
    requires rounds { (1 ≤ rounds) × (rounds ≤ 256) }
    ensures value { result ≡ round_named rounds g }
    ensures most { result ≤ rounds }
{
    (g.unsigned_abs() - 1) % rounds + 1
}

/// The window of a copy.
#[tactic(auto, using(crate::proofs::Numbers::window_low))]
fn window_of(times: MessageTimes, copy: u64) -> u64
    requires times { IsServable times }
    requires copy { copy < times.copies * (times.hyper / times.period) }
    ensures value { result ≡ copy / times.copies }
    ensures low { result < times.hyper / times.period }
{
    copy / u64::from(times.copies)
}

/// How far the times of a window, moved into the hyperperiod of the round instance that `before` come before,
/// are from those of the message's first window, in ticks.
#[tactic(auto, using(crate::proofs::Numbers::passed_most, crate::proofs::Numbers::earlier_most))]
fn shift(times: MessageTimes, window: u64, before: u64) -> i64
    requires times { IsServable times }
    requires window { window < times.hyper / times.period }
    requires before { before < most_choice times }
    ensures value { result ≡ pos (before / times.rounds * times.hyper) -ℤ pos (window * times.period) }
    ensures low { negsuc 1000000000000 ≤ℤ result }
    ensures high { result ≤ℤ pos 2001000000000 }
{
    let passed = before / times.rounds * times.hyper;
    let earlier = window * times.period;
    passed as i64 - earlier as i64
}

/// The bound on a round's start minus the first window's closing, where the round is to end before the window that is moved so far closes.
fn room_for(round: u64, moved: i64) -> i64
    requires round { round ≤ 1000000000 }
    requires low { negsuc 1000000000000 ≤ℤ moved }
    requires high { moved ≤ℤ pos 2001000000000 }
    ensures { result ≡ neg_ℤ moved -ℤ pos round }
{
    -moved - round as i64
}

/// The two constraints of the choice `g` for a copy of a message, counted over its windows: the round instance starts no earlier than
/// the copy's window opens, and ends no later than it closes.
/// `opens` and `closes` are the variables of the opening and the closing of the message's first window.
#[tactic(auto, using(crate::proofs::Numbers::natural_most))]
pub fn serve_diffs(opens: u32, closes: u32, times: MessageTimes, copy: u64, g: i64) -> [Diff; 2]
    requires times { IsServable times }
    requires copy { copy < times.copies * (times.hyper / times.period) }
    requires least { pos 1 ≤ℤ g }
    requires most { g ≤ℤ pos (most_choice times) }
    ensures { result ≡ served opens closes times copy g }
{
    let before = g.unsigned_abs() - 1;
    let round = (before % times.rounds) as u32;
    let window = window_of(times, copy);
    let moved = shift(times, window, before);
    let room = room_for(times.round, moved);
    [
        Diff {
            x: opens,
            y: round,
            c: moved,
        },
        Diff {
            x: round,
            y: closes,
            c: room,
        },
    ]
}

/// How many of the choices of messages name the round `j`, from 1, where a hyperperiod has so many rounds.
pub fn load(chosen: &[i64], rounds: u64, j: u64) -> u32
    requires choices { All (λ g. pos 1 ≤ℤ g) chosen.now }
    requires length { length chosen.now ≤ 4096 }
    requires rounds { (1 ≤ rounds) × (rounds ≤ 256) }
    ensures { result ≡ count_by (λ g. names_round rounds j g) chosen.now }
{
    let mut total = 0;
    for g in chosen {
        if round_of_choice(*g, rounds) == j {
            total += 1;
        }
    }
    total
}

//! The clauses on the rounds' tables. No call takes memory.

ghost use Rattle.std.specs.Prelude.{◌≡◌, ◌↔◌, ℕ, ◌+◌, ◌-◌, ◌*◌, ◌/◌, ◌<◌, ◌≤◌, IsTrue, [], length, pos, slice_index_or, true};
ghost use Rattle.sched_model.specs.Judged.{IsCase, ShowsWindow};
ghost use Rattle.sched_model.specs.Links.{graph_of};
ghost use Rattle.sched_model.specs.Numbers;
ghost use Rattle.sched_model.specs.OneHyperperiod.{EndsInWindow, EntriesFit, Lists, ServedOnce, ServesFirst, first_start, window_then};
ghost use Rattle.sched_model.specs.PlainMode.{hyper, instance_count, message_at, plain_at};
ghost use Rattle.sched_model.specs.RightSchedule.{Exactly, TableFits};
ghost use Rattle.sched_model.specs.ServedCounts.{Counts};

use crate::links::TaskGraph;
use crate::message_clause::{Window, window_of};
use crate::round_clauses::round_of;
use crate::rows::message_count;
use crate::schedule::Schedule;
use crate::schedule_times::{round_count, round_start};
use app_graph::ModeSet;

/// Whether the number is listed.
fn has(numbers: &[u32], number: u32) -> bool
    ensures { result ≡ Numbers.has numbers.now number }
{
    numbers.iter().any(|listed| number == *listed)
}

/// Whether no number stands twice.
fn are_distinct(numbers: &[u32]) -> bool
    ensures { result ≡ Numbers.distinct numbers.now }
{
    let mut rest = numbers;
    while let [first, others @ ..] = rest {
        if has(others, *first) {
            return false;
        }
        rest = others;
    }
    true
}

/// Whether the table of the round at the place has no more messages than a round has slots, and none twice.
fn table_fits(set: &ModeSet, mode: u32, s: &Schedule, place: usize) -> bool
    requires case { IsCase set.now mode s.now }
    requires place { place < length s.now.tables }
    ensures { IsTrue result ↔ TableFits (plain_at set.now mode) (slice_index_or s.now.tables place []) }
{
    let table = s.tables.as_slice()[place].as_slice();
    if table.len() > set.slots as usize {
        return false;
    }
    are_distinct(table)
}

/// Whether each table has no more messages than a round has slots, and none twice.
fn tables_fit(set: &ModeSet, mode: u32, s: &Schedule) -> bool
    requires { IsCase set.now mode s.now }
    ensures { IsTrue result ↔ ((j : ℕ) → j < length s.now.tables → TableFits (plain_at set.now mode) (slice_index_or s.now.tables j [])) }
{
    for place in 0..s.tables.as_slice().len() {
        if !table_fits(set, mode, s, place) {
            return false;
        }
    }
    true
}

/// Whether the round at the place carries the message.
fn lists(set: &ModeSet, mode: u32, s: &Schedule, window: Window, place: usize) -> bool
    requires case { IsCase set.now mode s.now }
    requires window { ShowsWindow (plain_at set.now mode) s.now window }
    requires place { place < length s.now.starts }
    ensures { IsTrue result ↔ Lists (plain_at set.now mode) s.now window.message place }
{
    has(s.tables.as_slice()[place].as_slice(), window.number)
}

/// When a round that starts at `start` in a hyperperiod of so many ticks first starts at `opens` or later.
fn first_start(start: u64, opens: u64, ticks: u64) -> u64
    requires start { start ≤ 2000000000000 }
    requires opens { opens ≤ 2000000000000 }
    requires ticks { (1 ≤ ticks) × (ticks ≤ 1000000000000) }
    ensures value { result ≡ start + (opens + ticks - 1 - start) / ticks * ticks }
    ensures most { result ≤ 5000000000000 }
{
    start + (opens + ticks - 1).saturating_sub(start) / ticks * ticks
}

/// When the round at the place first starts at the message's opening or later.
fn first_in(set: &ModeSet, mode: u32, s: &Schedule, window: Window, ticks: u64, place: usize) -> u64
    requires case { IsCase set.now mode s.now }
    requires window { ShowsWindow (plain_at set.now mode) s.now window }
    requires ticks { ticks ≡ hyper (plain_at set.now mode) }
    requires limits { (1 ≤ ticks) × (ticks ≤ 1000000000000) }
    requires place { place < length s.now.starts }
    ensures value { pos result ≡ first_start (plain_at set.now mode) s.now window.message place }
    ensures most { result ≤ 5000000000000 }
{
    first_start(round_start(s, place), window.opens, ticks)
}

/// How many windows of the message have opened before the last one that is open or past at the moment.
fn window_at(window: Window, moment: u64) -> u64
    requires { 1 ≤ window.period }
    ensures value { result ≡ (moment - window.opens) / window.period }
{
    moment.saturating_sub(window.opens) / window.period
}

/// Where a round that carries a message lies the first time.
#[derive(Clone, Copy, Drop)]
struct Visit {
    /// The number of the window that has opened last by then, from 0.
    window: u64,
    /// Whether the round ends before that window closes.
    ends: bool,
}

/// Where the round at the place lies when it first starts at the message's opening or later.
fn visit_of(
    set: &ModeSet,
    mode: u32,
    s: &Schedule,
    window: Window,
    ticks: u64,
    place: usize,
) -> Visit
    requires case { IsCase set.now mode s.now }
    requires window { ShowsWindow (plain_at set.now mode) s.now window }
    requires ticks { ticks ≡ hyper (plain_at set.now mode) }
    requires limits { (1 ≤ ticks) × (ticks ≤ 1000000000000) }
    requires place { place < length s.now.starts }
    ensures which { result.window ≡ window_then (plain_at set.now mode) s.now window.message place }
    ensures ends { IsTrue result.ends ↔ EndsInWindow (plain_at set.now mode) s.now window.message place }
{
    let first = first_in(set, mode, s, window, ticks, place);
    let which = window_at(window, first);
    let end = first + round_of(set, mode);
    Visit {
        window: which,
        ends: end <= window.closes + which * window.period,
    }
}

/// Which of the `count` windows from `base` on the round at the place serves, from 0; `count` where it serves none of them.
fn slot_of(
    set: &ModeSet,
    mode: u32,
    s: &Schedule,
    window: Window,
    ticks: u64,
    base: u64,
    count: u64,
    place: usize,
) -> u64
    requires case { IsCase set.now mode s.now }
    requires window { ShowsWindow (plain_at set.now mode) s.now window }
    requires ticks { ticks ≡ hyper (plain_at set.now mode) }
    requires limits { (1 ≤ ticks) × (ticks ≤ 1000000000000) }
    requires place { place < length s.now.starts }
    ensures most { result ≤ count }
    ensures found { result < count → ServesFirst (plain_at set.now mode) s.now window.message (base + result) place }
    ensures only { (k : ℕ) → k < count → ServesFirst (plain_at set.now mode) s.now window.message (base + k) place → k ≡ result }
{
    if !lists(set, mode, s, window, place) {
        return count;
    }
    let visit = visit_of(set, mode, s, window, ticks, place);
    if !visit.ends {
        return count;
    }
    if visit.window < base {
        return count;
    }
    (visit.window - base).min(count)
}

/// How many windows are counted at a time.
const MOST_WINDOWS: u64 = 128;

/// How many rounds serve each of the `count` windows from `base` on.
fn counts_of(
    set: &ModeSet,
    mode: u32,
    s: &Schedule,
    window: Window,
    ticks: u64,
    base: u64,
    count: u64,
) -> [u64; 128]
    requires case { IsCase set.now mode s.now }
    requires window { ShowsWindow (plain_at set.now mode) s.now window }
    requires ticks { ticks ≡ hyper (plain_at set.now mode) }
    requires limits { (1 ≤ ticks) × (ticks ≤ 1000000000000) }
    requires count { count ≤ 128 }
    ensures { Counts (plain_at set.now mode) s.now window.message base count (length s.now.starts) result }
{
    let mut counts = [0; 128];
    for place in 0..round_count(s) {
        let slot = slot_of(set, mode, s, window, ticks, base, count, place);
        if slot < count {
            counts[slot as usize] += 1;
        }
    }
    counts
}

/// Whether each of the first `count` numbers is `copies`.
fn are_all(counts: &[u64; 128], count: u64, copies: u32) -> bool
    requires { count ≤ 128 }
    ensures { IsTrue result ↔ ((k : ℕ) → k < count → slice_index_or counts.now k 0 ≡ copies) }
{
    for place in 0..count as usize {
        if counts[place] != u64::from(copies) {
            return false;
        }
    }
    true
}

/// Whether each of the `count` windows from `base` on has exactly as many rounds that carry the message in it as it has copies.
fn some_served(
    set: &ModeSet,
    mode: u32,
    s: &Schedule,
    window: Window,
    ticks: u64,
    base: u64,
    count: u64,
) -> bool
    requires case { IsCase set.now mode s.now }
    requires window { ShowsWindow (plain_at set.now mode) s.now window }
    requires ticks { ticks ≡ hyper (plain_at set.now mode) }
    requires limits { (1 ≤ ticks) × (ticks ≤ 1000000000000) }
    requires count { count ≤ 128 }
    ensures { IsTrue result ↔ ((k : ℕ) → k < count → Exactly (message_at (plain_at set.now mode) window.message).copies (ServesFirst (plain_at set.now mode) s.now window.message (base + k))) }
{
    let counts = counts_of(set, mode, s, window, ticks, base, count);
    are_all(&counts, count, window.copies)
}

/// Whether each window of a hyperperiod has exactly as many rounds that carry the message in it as it has copies. The rounds are gone
/// through once for each 128 windows.
fn are_served(set: &ModeSet, mode: u32, s: &Schedule, window: Window, ticks: u64) -> bool
    requires case { IsCase set.now mode s.now }
    requires window { ShowsWindow (plain_at set.now mode) s.now window }
    requires ticks { ticks ≡ hyper (plain_at set.now mode) }
    requires limits { (1 ≤ ticks) × (ticks ≤ 1000000000000) }
    ensures { IsTrue result ↔ ((k : ℕ) → k < instance_count (plain_at set.now mode) (message_at (plain_at set.now mode) window.message) → Exactly (message_at (plain_at set.now mode) window.message).copies (ServesFirst (plain_at set.now mode) s.now window.message k)) }
{
    let count = ticks / window.period;
    let mut base = 0;
    while base < count {
        let some = (count - base).min(MOST_WINDOWS);
        if !some_served(set, mode, s, window, ticks, base, some) {
            return false;
        }
        base += some;
    }
    true
}

/// Whether each window of each message has exactly as many rounds that carry it as it has copies.
fn messages_served(set: &ModeSet, mode: u32, s: &Schedule, graph: &TaskGraph, ticks: u64) -> bool
    requires case { IsCase set.now mode s.now }
    requires graph { graph.now ≡ graph_of (plain_at set.now mode) }
    requires ticks { ticks ≡ hyper (plain_at set.now mode) }
    requires limits { (1 ≤ ticks) × (ticks ≤ 1000000000000) }
    ensures { IsTrue result ↔ ((i : ℕ) → i < length (plain_at set.now mode).messages → (k : ℕ) → k < instance_count (plain_at set.now mode) (message_at (plain_at set.now mode) i) → Exactly (message_at (plain_at set.now mode) i).copies (ServesFirst (plain_at set.now mode) s.now i k)) }
{
    for message in 0..message_count(set, mode) {
        let window = window_of(set, mode, s, graph, message);
        if !are_served(set, mode, s, window, ticks) {
            return false;
        }
    }
    true
}

/// Whether the tables fit, and each window of a hyperperiod has exactly as many rounds that carry its message as it has copies.
pub(crate) fn served_once(
    set: &ModeSet,
    mode: u32,
    s: &Schedule,
    graph: &TaskGraph,
    ticks: u64,
) -> bool
    requires case { IsCase set.now mode s.now }
    requires graph { graph.now ≡ graph_of (plain_at set.now mode) }
    requires ticks { ticks ≡ hyper (plain_at set.now mode) }
    requires limits { (1 ≤ ticks) × (ticks ≤ 1000000000000) }
    ensures { IsTrue result ↔ ServedOnce (plain_at set.now mode) s.now }
{
    if !tables_fit(set, mode, s) {
        return false;
    }
    messages_served(set, mode, s, graph, ticks)
}

/// Whether the round at the place ends before the window closes, where it carries the message.
fn entry_fits(
    set: &ModeSet,
    mode: u32,
    s: &Schedule,
    window: Window,
    ticks: u64,
    place: usize,
) -> bool
    requires case { IsCase set.now mode s.now }
    requires window { ShowsWindow (plain_at set.now mode) s.now window }
    requires ticks { ticks ≡ hyper (plain_at set.now mode) }
    requires limits { (1 ≤ ticks) × (ticks ≤ 1000000000000) }
    requires place { place < length s.now.starts }
    ensures { IsTrue result ↔ (Lists (plain_at set.now mode) s.now window.message place → EndsInWindow (plain_at set.now mode) s.now window.message place) }
{
    if !lists(set, mode, s, window, place) {
        return true;
    }
    visit_of(set, mode, s, window, ticks, place).ends
}

/// Whether each round that carries the message ends before the window closes.
fn entries_of(set: &ModeSet, mode: u32, s: &Schedule, window: Window, ticks: u64) -> bool
    requires case { IsCase set.now mode s.now }
    requires window { ShowsWindow (plain_at set.now mode) s.now window }
    requires ticks { ticks ≡ hyper (plain_at set.now mode) }
    requires limits { (1 ≤ ticks) × (ticks ≤ 1000000000000) }
    ensures { IsTrue result ↔ ((j : ℕ) → j < length s.now.starts → Lists (plain_at set.now mode) s.now window.message j → EndsInWindow (plain_at set.now mode) s.now window.message j) }
{
    for place in 0..round_count(s) {
        if !entry_fits(set, mode, s, window, ticks, place) {
            return false;
        }
    }
    true
}

/// Whether each round that carries a message ends before the window closes.
pub(crate) fn entries_fit(
    set: &ModeSet,
    mode: u32,
    s: &Schedule,
    graph: &TaskGraph,
    ticks: u64,
) -> bool
    requires case { IsCase set.now mode s.now }
    requires graph { graph.now ≡ graph_of (plain_at set.now mode) }
    requires ticks { ticks ≡ hyper (plain_at set.now mode) }
    requires limits { (1 ≤ ticks) × (ticks ≤ 1000000000000) }
    ensures { IsTrue result ↔ EntriesFit (plain_at set.now mode) s.now }
{
    for message in 0..message_count(set, mode) {
        let window = window_of(set, mode, s, graph, message);
        if !entries_of(set, mode, s, window, ticks) {
            return false;
        }
    }
    true
}

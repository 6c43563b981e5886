//! The clause on the windows of messages. No call takes memory.

ghost use Rattle.std.specs.Prelude.{◌≡◌, ◌↔◌, ℕ, ◌<◌, ◌≤◌, IsTrue, length};
ghost use Rattle.sched_model.specs.Judged.{IsCase, SenderFits, ShowsWindow, TakerFits};
ghost use Rattle.sched_model.specs.Links.{graph_of};
ghost use Rattle.sched_model.specs.PlainMode.{plain_at};
ghost use Rattle.sched_model.specs.RightSchedule.{MessageFits};

use crate::links::{Link, TaskGraph, holds};
use crate::rows::{apps_of, find_message, message_count, period_of, task_at, task_count};
use crate::schedule::Schedule;
use crate::schedule_times::{closes, opens, task_start};
use app_graph::ModeSet;

/// A message and its first window. Times are in ticks.
#[derive(Clone, Copy, Drop)]
pub(crate) struct Window {
    /// The place of the message.
    pub(crate) message: usize,
    /// Its number over the file.
    pub(crate) number: u32,
    /// Where its first window opens.
    pub(crate) opens: u64,
    /// Where it closes.
    pub(crate) closes: u64,
    /// Its period.
    pub(crate) period: u64,
    /// How many rounds of a window carry it.
    pub(crate) copies: u32,
    /// Its producers and consumers.
    pub(crate) link: Link,
}

/// The window of the message at the place.
pub(crate) fn window_of(
    set: &ModeSet,
    mode: u32,
    s: &Schedule,
    graph: &TaskGraph,
    message: usize,
) -> Window
    requires case { IsCase set.now mode s.now }
    requires graph { graph.now ≡ graph_of (plain_at set.now mode) }
    requires message { message < length (plain_at set.now mode).messages }
    ensures shows { ShowsWindow (plain_at set.now mode) s.now result }
    ensures place { result.message ≡ message }
{
    let (app, sent) = find_message(apps_of(set, mode), message);
    Window {
        message,
        number: sent.number,
        opens: opens(s, message),
        closes: closes(s, message),
        period: period_of(app),
        copies: sent.copies,
        link: graph.link(message),
    }
}

/// Whether the window opens after the end of the task at the place and closes within a period of it, where the task is a producer.
fn sender_fits(set: &ModeSet, mode: u32, s: &Schedule, window: Window, place: usize) -> bool
    requires case { IsCase set.now mode s.now }
    requires window { ShowsWindow (plain_at set.now mode) s.now window }
    requires few { length (plain_at set.now mode).tasks ≤ 128 }
    requires place { place < length (plain_at set.now mode).tasks }
    ensures { IsTrue result ↔ SenderFits (plain_at set.now mode) s.now window.message place }
{
    if !holds(window.link.from, place) {
        return true;
    }
    let end = task_start(s, place) + task_at(set, mode, place).wcet;
    if end > window.opens {
        return false;
    }
    window.closes <= end + window.period
}

/// Whether the task at the place starts at the window's close or later, and within a period of its opening, where it is a consumer.
fn taker_fits(set: &ModeSet, mode: u32, s: &Schedule, window: Window, place: usize) -> bool
    requires case { IsCase set.now mode s.now }
    requires window { ShowsWindow (plain_at set.now mode) s.now window }
    requires few { length (plain_at set.now mode).tasks ≤ 128 }
    requires place { place < length (plain_at set.now mode).tasks }
    ensures { IsTrue result ↔ TakerFits (plain_at set.now mode) s.now window.message place }
{
    if !holds(window.link.to, place) {
        return true;
    }
    let start = task_start(s, place);
    if start < window.closes {
        return false;
    }
    start < window.opens + window.period
}

/// Whether the window fits each producer.
fn senders_fit(set: &ModeSet, mode: u32, s: &Schedule, window: Window) -> bool
    requires case { IsCase set.now mode s.now }
    requires window { ShowsWindow (plain_at set.now mode) s.now window }
    ensures { IsTrue result ↔ ((a : ℕ) → a < length (plain_at set.now mode).tasks → SenderFits (plain_at set.now mode) s.now window.message a) }
{
    for place in 0..task_count(set, mode) {
        if !sender_fits(set, mode, s, window, place) {
            return false;
        }
    }
    true
}

/// Whether the window fits each consumer.
fn takers_fit(set: &ModeSet, mode: u32, s: &Schedule, window: Window) -> bool
    requires case { IsCase set.now mode s.now }
    requires window { ShowsWindow (plain_at set.now mode) s.now window }
    ensures { IsTrue result ↔ ((b : ℕ) → b < length (plain_at set.now mode).tasks → TakerFits (plain_at set.now mode) s.now window.message b) }
{
    for place in 0..task_count(set, mode) {
        if !taker_fits(set, mode, s, window, place) {
            return false;
        }
    }
    true
}

/// Whether the window of a message lasts and fits its producers and consumers.
fn window_fits(set: &ModeSet, mode: u32, s: &Schedule, window: Window) -> bool
    requires case { IsCase set.now mode s.now }
    requires window { ShowsWindow (plain_at set.now mode) s.now window }
    ensures { IsTrue result ↔ MessageFits (plain_at set.now mode) s.now window.message }
{
    if window.closes <= window.opens {
        return false;
    }
    if !senders_fit(set, mode, s, window) {
        return false;
    }
    takers_fit(set, mode, s, window)
}

/// Whether the window of each message lasts and fits its producers and consumers.
pub(crate) fn messages_fit(set: &ModeSet, mode: u32, s: &Schedule, graph: &TaskGraph) -> bool
    requires case { IsCase set.now mode s.now }
    requires graph { graph.now ≡ graph_of (plain_at set.now mode) }
    ensures { IsTrue result ↔ ((i : ℕ) → i < length (plain_at set.now mode).messages → MessageFits (plain_at set.now mode) s.now i) }
{
    for message in 0..message_count(set, mode) {
        let window = window_of(set, mode, s, graph, message);
        if !window_fits(set, mode, s, window) {
            return false;
        }
    }
    true
}

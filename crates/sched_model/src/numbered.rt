//! Tasks and messages by their numbers over the file. No call takes memory.

ghost use Rattle.std.specs.Prelude.{◌≡◌, ℕ, ◌<◌, ◌≤◌, IsTrue, length};
ghost use Rattle.app_graph.specs.Validation.{KeepsRules};
ghost use Rattle.sched_model.specs.Numbered.{IsMessageOf, IsTaskOf};
ghost use Rattle.sched_model.specs.PlainMode.{message_at, plain_at, task_at};
ghost use Rattle.sched_model.specs.Rows.{ShowsTask};

use crate::rows::{
    TaskRow, apps_of, deadline_of, find_message, message_count, period_of, task_at, task_count,
};
use app_graph::ModeSet;

/// A message of a mode. Durations are in ticks.
#[derive(Clone, Copy, Debug, PartialEq, Eq, Drop)]
pub struct MessageRow {
    /// Its number over the file.
    pub number: u32,
    /// The period of its application.
    pub period: u64,
    /// The deadline of its application.
    pub deadline: u64,
    /// How many round instances of a window carry it.
    pub copies: u32,
}

/// How many tasks the mode has.
pub fn tasks(set: &ModeSet, mode: u32) -> u32
    requires rules { KeepsRules set.now }
    requires mode { mode < length set.now.modes }
    ensures value { result ≡ length (plain_at set.now mode).tasks }
    ensures most { result ≤ 128 }
{
    task_count(set, mode) as u32
}

/// The task at the place of the mode, from 0 in file order.
pub fn task_row(set: &ModeSet, mode: u32, place: u32) -> TaskRow
    requires rules { KeepsRules set.now }
    requires mode { mode < length set.now.modes }
    requires place { place < length (plain_at set.now mode).tasks }
    ensures { ShowsTask result (task_at (plain_at set.now mode) place) }
{
    task_at(set, mode, place as usize)
}

/// The message at the place of the mode, from 0 in file order.
pub fn message_row(set: &ModeSet, mode: u32, place: u32) -> MessageRow
    requires rules { KeepsRules set.now }
    requires mode { mode < length set.now.modes }
    requires place { place < length (plain_at set.now mode).messages }
    ensures number { result.number ≡ (message_at (plain_at set.now mode) place).number }
    ensures period { result.period ≡ (message_at (plain_at set.now mode) place).period }
    ensures deadline { result.deadline ≡ (message_at (plain_at set.now mode) place).deadline }
    ensures copies { result.copies ≡ (message_at (plain_at set.now mode) place).copies }
    ensures limits { (1 ≤ result.period) × (result.period ≤ 1000000000) × (result.deadline ≤ 1000000000000) }
{
    let (app, message) = find_message(apps_of(set, mode), place as usize);
    MessageRow {
        number: message.number,
        period: period_of(app),
        deadline: deadline_of(app),
        copies: message.copies,
    }
}

/// Whether the mode has the task with the number.
fn has_task(set: &ModeSet, mode: u32, number: u32) -> bool
    requires rules { KeepsRules set.now }
    requires mode { mode < length set.now.modes }
    ensures found { IsTrue result → (a : ℕ) × IsTaskOf set.now mode a number }
    ensures known { (a : ℕ) → IsTaskOf set.now mode a number → IsTrue result }
{
    for place in 0..tasks(set, mode) {
        if task_row(set, mode, place).number == number {
            return true;
        }
    }
    false
}

/// The number of the mode that has the task with the number, from 0.
pub fn mode_of_task(set: &ModeSet, number: u32) -> u32
    requires rules { KeepsRules set.now }
    requires known { (i a : ℕ) × IsTaskOf set.now i a number }
    ensures within { result < length set.now.modes }
    ensures value { (i a : ℕ) → IsTaskOf set.now i a number → result ≡ i }
{
    for mode in 0..set.modes.as_slice().len() as u32 {
        if has_task(set, mode, number) {
            return mode;
        }
    }
    unreachable!()
}

/// The place in the mode of the task with the number.
pub fn task_place(set: &ModeSet, mode: u32, number: u32) -> u32
    requires rules { KeepsRules set.now }
    requires known { (a : ℕ) × IsTaskOf set.now mode a number }
    ensures within { result < length (plain_at set.now mode).tasks }
    ensures value { (a : ℕ) → IsTaskOf set.now mode a number → result ≡ a }
{
    for place in 0..tasks(set, mode) {
        if task_row(set, mode, place).number == number {
            return place;
        }
    }
    unreachable!()
}

/// The place in the mode of the message with the number.
pub fn message_place(set: &ModeSet, mode: u32, number: u32) -> u32
    requires rules { KeepsRules set.now }
    requires known { (a : ℕ) × IsMessageOf set.now mode a number }
    ensures within { result < length (plain_at set.now mode).messages }
    ensures value { (a : ℕ) → IsMessageOf set.now mode a number → result ≡ a }
{
    for place in 0..message_count(set, mode) as u32 {
        if message_row(set, mode, place).number == number {
            return place;
        }
    }
    unreachable!()
}

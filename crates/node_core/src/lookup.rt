//! Looking up in a node's table.

ghost use Rattle.std.specs.Prelude.{◌≡◌, ◌-◌, ◌<◌, length};
ghost use Rattle.std.specs.List.{AllPairs, position};
ghost use Rattle.std.specs.Option.{option_copied};
ghost use Rattle.node_core.specs.Fits.{IsBefore, IsTaskBefore, SpotFits, TableFits};
ghost use Rattle.node_core.specs.Lookup.{consumer_place, has_round, mode_at, mode_of_round, own_message, own_slot, own_task, round_at, sends};

use node_tables::{ModeTable, NodeTable, OwnMessage, OwnRound, OwnSlot, OwnTask};
use tick_num::Time;

/// The mode at a place.
pub(crate) fn mode_at(table: &NodeTable, place: usize) -> &ModeTable
    requires { place < length table.now.modes }
    ensures { result.now ≡ mode_at table.now place }
{
    &table.modes.as_slice()[place]
}

/// The round of a mode at a place.
pub(crate) fn round_at(mode: &ModeTable, place: usize) -> &OwnRound
    requires { place < length mode.now.rounds }
    ensures { result.now ≡ round_at mode.now place }
{
    &mode.rounds.as_slice()[place]
}

/// Whether a mode has the round with this number over the file.
fn has_round(mode: &ModeTable, number: u16) -> bool
    ensures { result ≡ has_round number mode.now }
{
    let first = mode.first_round as usize;
    let number = number as usize;
    first <= number && number - first < mode.rounds.as_slice().len()
}

/// The place of the first mode that has the round with this number over the file.
fn mode_with(modes: &[ModeTable], number: u16) -> Option<usize>
    ensures { result ≡ position (has_round number) modes.now }
{
    modes.iter().position(|mode| has_round(mode, number))
}

/// The place of the mode that has the round with this number over the file, or the number of modes.
pub(crate) fn mode_of_round(table: &NodeTable, number: u16) -> usize
    ensures { result ≡ mode_of_round table.now number }
{
    let modes = table.modes.as_slice();
    mode_with(modes, number).unwrap_or(modes.len())
}

/// The place of a round: of its mode, in its mode, and its start in the hyperperiod.
#[derive(Clone, Copy, Drop)]
pub(crate) struct Spot {
    pub mode: usize,
    pub round: usize,
    pub start: Time,
}

/// Where the round with this number over the file stands.
pub(crate) fn spot_of(table: &NodeTable, number: u16) -> Spot
    requires known { mode_of_round table.now number < length table.now.modes }
    requires fits { TableFits table.now }
    ensures mode { result.mode ≡ mode_of_round table.now number }
    ensures round { result.round ≡ number - (mode_at table.now (mode_of_round table.now number)).first_round }
    ensures start { result.start ≡ (round_at (mode_at table.now result.mode) result.round).start }
    ensures in_range { SpotFits table.now result.mode result.round result.start }
{
    let mode = mode_of_round(table, number);
    let mode_table = mode_at(table, mode);
    let round = (number - mode_table.first_round) as usize;
    Spot {
        mode,
        round,
        start: round_at(mode_table, round).start,
    }
}

/// The own slot of a round with this number, from 1.
pub(crate) fn own_slot(round: &OwnRound, slot: u8) -> Option<&OwnSlot>
    ensures { option_copied result ≡ own_slot round.now slot }
{
    round.slots.as_slice().iter().find(|own| own.slot == slot)
}

/// The own message with this number.
pub(crate) fn own_message(mode: &ModeTable, number: u32) -> Option<&OwnMessage>
    requires { AllPairs IsBefore mode.now.messages }
    ensures { option_copied result ≡ own_message mode.now.messages number }
{
    let messages = mode.messages.as_slice();
    match messages.binary_search_by_key(&number, |message| message.number) {
        Ok(place) => Some(&messages[place]),
        Err(_) => None,
    }
}

/// The own task with this number.
pub(crate) fn own_task(mode: &ModeTable, number: u32) -> Option<&OwnTask>
    requires { AllPairs IsTaskBefore mode.now.tasks }
    ensures { option_copied result ≡ own_task mode.now.tasks number }
{
    let tasks = mode.tasks.as_slice();
    match tasks.binary_search_by_key(&number, |task| task.number) {
        Ok(place) => Some(&tasks[place]),
        Err(_) => None,
    }
}

/// The place of a task among the consumers of a message on the node.
pub(crate) fn consumer_place(message: &OwnMessage, task: u32) -> Option<usize>
    ensures { result ≡ consumer_place task message.now }
{
    message
        .consumers
        .as_slice()
        .iter()
        .position(|consumer| *consumer == task)
}

/// Whether the node sends the message.
pub(crate) fn sends(message: &OwnMessage) -> bool
    ensures { result ≡ sends message.now }
{
    message.role == 1 || message.role == 3
}

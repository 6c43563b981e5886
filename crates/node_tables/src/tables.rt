//! What a node keeps of the plans.

use app_graph::ListOf;
use tick_num::Time;

/// The part of the plans that concerns one node. Nodes, tasks and messages are numbered from 0
/// over the whole file.
#[derive(Drop)]
pub struct NodeTable {
    pub node: u32,
    /// The modes of the file, in its order.
    pub modes: ListOf<ModeTable>,
}

/// A node's part of a mode.
#[derive(Drop)]
pub struct ModeTable {
    /// The hyperperiod, in ticks.
    pub hyper: Time,
    /// The number of the mode's first round, from 1 over the rounds of all modes.
    pub first_round: u16,
    /// The tasks on the node, by number.
    pub tasks: ListOf<OwnTask>,
    /// The messages that the node sends or takes, by number.
    pub messages: ListOf<OwnMessage>,
    /// The rounds of the mode, in order.
    pub rounds: ListOf<OwnRound>,
}

/// A task on the node, with times in ticks.
#[derive(Drop)]
pub struct OwnTask {
    pub number: u32,
    pub period: Time,
    pub offset: Time,
    pub wcet: Time,
}

/// A message that the node sends or takes.
#[derive(Drop)]
pub struct OwnMessage {
    pub number: u32,
    /// 1 where the node sends it, 2 where it takes it, 3 for both.
    pub role: u8,
    /// The numbers of the tasks that it is from, in the order of the file.
    pub producers: ListOf<u32>,
    /// The numbers of the tasks on the node that it is for, in the order of the file.
    pub consumers: ListOf<u32>,
}

/// A round, with the slots of the node's own messages.
#[derive(Drop)]
pub struct OwnRound {
    /// Its start in the hyperperiod, in ticks.
    pub start: Time,
    /// By slot number.
    pub slots: ListOf<OwnSlot>,
}

/// The slot of a message.
#[derive(Drop)]
pub struct OwnSlot {
    /// From 1 in its round.
    pub slot: u8,
    pub message: u32,
    /// The release of the instance that it carries, in ticks from the hyperperiod's start.
    pub release: Time,
    /// Which copy of the instance it carries, from 1.
    pub copy: u8,
}

//! A mode set: what an accepted mode file says.

use crate::lists::ListOf;
use crate::names::Name;
use tick_num::Time;

/// A task. Tasks are numbered over the whole file, in order of modes, applications and lists.
#[derive(Drop)]
pub struct Task {
    /// Its name, distinct in its mode.
    pub name: Name,
    /// The number of its node, from 0.
    pub node: u32,
    /// How long a run takes at most, in ticks, from 1 to its period.
    pub wcet: Time,
    /// The name of the body that its runs fire.
    pub body: Name,
    /// Its number, from 0.
    pub number: u32,
}

/// A message. Messages are numbered over the whole file, in order of modes, applications and lists.
#[derive(Drop)]
pub struct Message {
    /// Its name, distinct in its mode.
    pub name: Name,
    /// The numbers of its producers, all on one node.
    pub from: ListOf<u32>,
    /// The numbers of its consumers.
    pub to: ListOf<u32>,
    /// Its number, from 0.
    pub number: u32,
    /// How many round instances of a window carry it, at least 1.
    pub copies: u32,
}

/// An application: an acyclic graph of tasks that messages join.
#[derive(Drop)]
pub struct App {
    /// Its name, distinct in its mode.
    pub name: Name,
    /// The time from one release to the next, in ticks.
    pub period: Time,
    /// The time from the start of a first task to the end of a last one, in ticks at most.
    pub deadline: Time,
    /// Its tasks, in file order.
    pub tasks: ListOf<Task>,
    /// Its messages, in file order.
    pub messages: ListOf<Message>,
}

/// A mode: applications that run together.
#[derive(Drop)]
pub struct Mode {
    /// Its name, distinct in the file.
    pub name: Name,
    /// Its applications, in file order.
    pub apps: ListOf<App>,
}

/// What a mode file says.
#[derive(Drop)]
pub struct ModeSet {
    /// The number of slots in a round.
    pub slots: u32,
    /// The length of a round, in ticks.
    pub round: Time,
    /// The greatest time from one round's start to the next one's, in ticks.
    pub gap: Time,
    /// The number of the node that sends the beacons.
    pub host: u32,
    /// The names of the nodes, in order of their numbers.
    pub nodes: ListOf<Name>,
    /// The modes, in file order.
    pub modes: ListOf<Mode>,
}

//! A mode file's tables as they are written: nodes and tasks by name, and no rule on a value kept.

use crate::lists::ListOf;
use crate::names::Name;

/// A task as it is written.
#[derive(Drop)]
pub struct RawTask {
    pub name: Name,
    /// The name of its node.
    pub node: Name,
    /// In ticks.
    pub wcet: i64,
    /// The name of its body.
    pub body: Name,
}

/// A message as it is written.
#[derive(Drop)]
pub struct RawMessage {
    pub name: Name,
    /// The names of its producers.
    pub from: ListOf<Name>,
    /// The names of its consumers.
    pub to: ListOf<Name>,
    /// How many round instances of a window carry it.
    pub copies: i64,
}

/// An application as it is written.
#[derive(Drop)]
pub struct RawApp {
    pub name: Name,
    /// In ticks.
    pub period: i64,
    /// In ticks.
    pub deadline: i64,
    pub tasks: ListOf<RawTask>,
    pub messages: ListOf<RawMessage>,
}

/// A mode as it is written.
#[derive(Drop)]
pub struct RawMode {
    pub name: Name,
    pub apps: ListOf<RawApp>,
}

/// A mode file as it is written.
#[derive(Drop)]
pub struct RawSet {
    pub slots: i64,
    /// In ticks.
    pub round: i64,
    /// In ticks.
    pub gap: i64,
    /// The name of the host.
    pub host: Name,
    pub nodes: ListOf<Name>,
    pub modes: ListOf<RawMode>,
}

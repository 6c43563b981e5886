//! The schedule of a mode.

use app_graph::ListOf;
use tick_num::Time;

/// When a mode's rounds, tasks and messages have their times in a hyperperiod, in file order of the mode.
/// Times are in ticks from the hyperperiod's start.
#[derive(Drop)]
pub struct Schedule {
    /// The start of each round.
    pub starts: ListOf<Time>,
    /// The start of each task's first run.
    pub tasks: ListOf<Time>,
    /// Where the first window of each message opens and where it closes.
    pub messages: ListOf<(Time, Time)>,
    /// The numbers of each round's messages, in order of the slots.
    pub tables: ListOf<ListOf<u32>>,
}

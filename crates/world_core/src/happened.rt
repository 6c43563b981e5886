//! Events of a world, and what each of them did.

ghost use Rattle.std.specs.Prelude.{◌≡◌};
ghost use Rattle.world_core.specs.Done.{whole};

use beacon_codec::Beacon;
use node_core::{Inputs, Packet};
use tick_num::Time;

/// An event. docs/WORLD.md says what each of them does.
#[derive(Clone, Copy, Debug, PartialEq, Eq)]
pub enum Event {
    /// Performs the next entry of the running mode's cycle. Its beacon or packet is lost to each node
    /// whose bit is set, node `v` at bit `v`; bits past the last node count for nothing.
    Advance(u64),
    /// Asks for a change to this mode.
    Request(u32),
    /// Restarts this node, which isn't the host.
    Restart(u32),
}

/// What an event did. `at` is the tick of the last Advance, from the world's start. Nodes go by their
/// places in the file, tasks and messages by their numbers over the file; a set of nodes has bit `v`
/// for node `v`.
#[derive(Drop)]
pub enum Happened {
    /// The host sent a beacon, which these nodes heard.
    Beacon {
        at: Time,
        beacon: Beacon,
        heard: u64,
    },
    /// The node sent the packet in a slot, and these nodes took it.
    Sent {
        at: Time,
        node: u32,
        packet: Packet,
        taken: u64,
    },
    /// Nobody sent in the slot of this message.
    Silent {
        at: Time,
        message: u32,
    },
    /// The node started the task with these inputs.
    Started {
        at: Time,
        node: u32,
        task: u32,
        inputs: Inputs,
    },
    /// The node did not start the task.
    Off {
        at: Time,
        node: u32,
        task: u32,
    },
    /// The run of the task ended with this value.
    Ended {
        at: Time,
        node: u32,
        task: u32,
        value: i64,
    },
    /// No run of the task was in progress at its end.
    Void {
        at: Time,
        node: u32,
        task: u32,
    },
    /// The mode was requested.
    Requested {
        at: Time,
        mode: u32,
    },
    /// The node restarted.
    Restarted {
        at: Time,
        node: u32,
    },
}

/// What an event did, as in `Happened`. The inputs of a start stand apart, so that no large value is
/// moved on the way.
#[derive(Drop)]
pub enum Done {
    /// The host sent a beacon, which these nodes heard.
    Beacon {
        at: Time,
        beacon: Beacon,
        heard: u64,
    },
    /// The node sent the packet in a slot, and these nodes took it.
    Sent {
        at: Time,
        node: u32,
        packet: Packet,
        taken: u64,
    },
    /// Nobody sent in the slot of this message.
    Silent {
        at: Time,
        message: u32,
    },
    /// The node started the task.
    Started {
        at: Time,
        node: u32,
        task: u32,
    },
    /// The node did not start the task.
    Off {
        at: Time,
        node: u32,
        task: u32,
    },
    /// The run of the task ended with this value.
    Ended {
        at: Time,
        node: u32,
        task: u32,
        value: i64,
    },
    /// No run of the task was in progress at its end.
    Void {
        at: Time,
        node: u32,
        task: u32,
    },
    /// The mode was requested.
    Requested {
        at: Time,
        mode: u32,
    },
    /// The node restarted.
    Restarted {
        at: Time,
        node: u32,
    },
}

impl Done {
    /// What happened, where a start had these inputs.
    pub fn with(self, inputs: Inputs) -> Happened
        ensures { result ≡ whole self inputs }
    {
        match self {
            Done::Beacon { at, beacon, heard } => Happened::Beacon { at, beacon, heard },
            Done::Sent {
                at,
                node,
                packet,
                taken,
            } => Happened::Sent {
                at,
                node,
                packet,
                taken,
            },
            Done::Silent { at, message } => Happened::Silent { at, message },
            Done::Started { at, node, task } => Happened::Started {
                at,
                node,
                task,
                inputs,
            },
            Done::Off { at, node, task } => Happened::Off { at, node, task },
            Done::Ended {
                at,
                node,
                task,
                value,
            } => Happened::Ended {
                at,
                node,
                task,
                value,
            },
            Done::Void { at, node, task } => Happened::Void { at, node, task },
            Done::Requested { at, mode } => Happened::Requested { at, mode },
            Done::Restarted { at, node } => Happened::Restarted { at, node },
        }
    }
}

//! The three states of a node as one type.

ghost use Rattle.std.specs.Prelude.{◌≡◌, ◌<◌, Some, None, cond, is_some, ◌&&◌};
ghost use Rattle.world_core.specs.NodeStates.{MayHearNow, MayMissNow, after_beacon, after_missed, after_restart, state_left};

use beacon_codec::Beacon;
use node_core::{Coasting, Listening, Missed, Synced};

/// A node in one of its states.
#[derive(Drop)]
pub(crate) enum State {
    Listens(Listening),
    Syncs(Synced),
    Coasts(Coasting),
}

impl State {
    /// Hears a beacon.
    pub(crate) fn hear(self, b: Beacon) -> State
        requires { MayHearNow self b }
        ensures { result ≡ after_beacon self b }
    {
        match self {
            State::Listens(node) => State::Syncs(node.hear(b)),
            State::Syncs(node) => State::Syncs(node.hear(b)),
            State::Coasts(node) => State::Syncs(node.hear(b)),
        }
    }

    /// Misses a beacon.
    pub(crate) fn miss(self) -> State
        requires { MayMissNow self }
        ensures { result ≡ after_missed self }
    {
        match self {
            State::Listens(node) => State::Listens(node),
            State::Syncs(node) => left(node.miss()),
            State::Coasts(node) => State::Listens(node.miss()),
        }
    }

    /// Restarts.
    pub(crate) fn restart(self) -> State
        ensures { result ≡ after_restart self }
    {
        match self {
            State::Listens(node) => State::Listens(node.restart()),
            State::Syncs(node) => State::Listens(node.restart()),
            State::Coasts(node) => State::Listens(node.restart()),
        }
    }
}

/// What a missed beacon leaves of a Synced node.
fn left(missed: Missed) -> State
    ensures { result ≡ state_left missed }
{
    match missed {
        Missed::Coasted(node) => State::Coasts(node),
        Missed::StoodDown(node) => State::Listens(node),
    }
}

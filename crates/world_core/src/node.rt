//! A node in whichever state it is, changed in place.

ghost use Rattle.std.specs.Prelude.{◌≡◌, ◌<◌, ◌&&◌, cond};
ghost use Rattle.world_core.specs.declared.state.State.TheVariants.{Listens};
ghost use Rattle.world_core.specs.NodeStates.{MayHearNow, MayMissNow, MayPassNow, MayReceiveNow, MayStartNow, MayUseSlotNow, after_beacon, after_end, after_missed, after_packet, after_restart, after_start, after_ticks, inputs_at_start, sent_now, starts_now, takes_now, value_now};
ghost use Rattle.world_core.specs.Nodes.{MayHearOrMiss, heard_or_missed};
ghost use Rattle.task_body.specs.Body.{answer_of, fired};

use crate::state::State;
use beacon_codec::Beacon;
use node_core::{Inputs, Listening, Packet};
use std::marker::Model;
use task_body::TaskBody;
use tick_num::Time;

/// A node. Contracts see its state.
#[derive(Drop)]
pub(crate) struct Node {
    // It is absent only while a call moves it on.
    state: Option<State>,
}

impl Model for Node {
    ghost use Rattle.std.specs.Prelude.{◌≡◌, is_some, true, unwrap_or};
    ghost use Rattle.world_core.specs.declared.state.State.{State};
    ghost use Rattle.world_core.specs.NodeStates.{no_state};

    ghost Value = { State };

    ghost view = { λ n. unwrap_or n.state no_state };

    ghost invariant = { λ n. is_some n.state ≡ true };
}

impl Node {
    /// A node that waits for a beacon.
    pub(crate) fn new(node: Listening) -> Self
        ensures { result ≡ Listens node }
    {
        Node {
            state: Some(State::Listens(node)),
        }
    }

    /// Hears a beacon.
    pub(crate) fn hear(&mut self, b: Beacon)
        requires { MayHearNow self.old b }
        ensures { self.new ≡ after_beacon self.old b }
    {
        if let Some(State::Syncs(node)) = &mut self.state {
            node.hear_on(b);
            return;
        }
        if let Some(state) = self.state.take() {
            self.state = Some(state.hear(b));
        }
    }

    /// Misses a beacon.
    pub(crate) fn miss(&mut self)
        requires { MayMissNow self.old }
        ensures { self.new ≡ after_missed self.old }
    {
        if let Some(state) = self.state.take() {
            self.state = Some(state.miss());
        }
    }

    /// Hears a beacon, or misses it.
    pub(crate) fn tell(&mut self, hears: bool, b: Beacon)
        requires { MayHearOrMiss hears b self.old }
        ensures { self.new ≡ heard_or_missed hears b self.old }
    {
        if hears {
            self.hear(b);
        } else {
            self.miss();
        }
    }

    /// Restarts.
    pub(crate) fn restart(&mut self)
        ensures { self.new ≡ after_restart self.old }
    {
        if let Some(state) = self.state.take() {
            self.state = Some(state.restart());
        }
    }

    /// Lets ticks pass.
    pub(crate) fn pass(&mut self, ticks: Time)
        requires { MayPassNow self.old ticks }
        ensures { self.new ≡ after_ticks self.old ticks }
    {
        match &mut self.state {
            Some(State::Syncs(node)) => node.pass(ticks),
            Some(State::Coasts(node)) => node.pass(ticks),
            Some(State::Listens(_)) | None => {}
        }
    }

    /// What the node sends in a slot.
    pub(crate) fn slot(&self, slot: u8) -> Option<Packet>
        requires { MayUseSlotNow self.now slot }
        ensures { result ≡ sent_now self.now slot }
    {
        match &self.state {
            Some(State::Syncs(node)) => node.slot(slot),
            Some(State::Listens(_)) | Some(State::Coasts(_)) | None => None,
        }
    }

    /// Gets the packet of a slot, and answers whether it takes it.
    pub(crate) fn receive(&mut self, slot: u8, packet: &Packet) -> bool
        requires { MayReceiveNow self.old slot packet.now }
        ensures state { self.new ≡ after_packet self.old slot packet.now }
        ensures taken { result ≡ takes_now self.old slot }
    {
        match &mut self.state {
            Some(State::Syncs(node)) => node.receive(slot, packet),
            Some(State::Listens(_)) | Some(State::Coasts(_)) | None => false,
        }
    }

    /// Gets the packet of a slot where it reaches the node, and answers whether it takes it.
    pub(crate) fn offer(&mut self, reaches: bool, slot: u8, packet: &Packet) -> bool
        requires { MayReceiveNow self.old slot packet.now }
        ensures state { self.new ≡ cond reaches (after_packet self.old slot packet.now) self.old }
        ensures taken { result ≡ (reaches && takes_now self.old slot) }
    {
        if reaches {
            self.receive(slot, packet)
        } else {
            false
        }
    }

    /// Starts a task, where its start is placed: the body is fired. Answers whether it started, and then
    /// puts its inputs in place of others.
    pub(crate) fn start(&mut self, task: u32, body: &mut dyn TaskBody, inputs: &mut Inputs) -> bool
        requires { MayStartNow self.old task }

        ensures answer { result ≡ starts_now self.old task }
        ensures inputs { inputs.new
            ≡ cond (starts_now self.old task) (inputs_at_start self.old task) inputs.old }
        ensures state { self.new ≡ after_start self.old task
            (answer_of (seen body.old) task (inputs_at_start self.old task)) }
        ensures body { seen body.new ≡ cond (starts_now self.old task)
            (fired (seen body.old) task (inputs_at_start self.old task)) (seen body.old) }
    {
        match &mut self.state {
            Some(State::Syncs(node)) => node.start_with(task, body, inputs),
            Some(State::Coasts(node)) => node.start_with(task, body, inputs),
            Some(State::Listens(_)) | None => false,
        }
    }

    /// Ends the run of a task, below 1,024, where it is in progress. Answers its value.
    pub(crate) fn end(&mut self, task: u32) -> Option<i64>
        requires { task < 1024 }
        ensures state { self.new ≡ after_end self.old task }
        ensures value { result ≡ value_now self.old task }
    {
        match &mut self.state {
            Some(State::Syncs(node)) => node.end(task),
            Some(State::Coasts(node)) => node.end(task),
            Some(State::Listens(_)) | None => None,
        }
    }
}

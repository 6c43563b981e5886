//! What a world keeps, and its steps as rules on what is kept.

ghost use Rattle.std.specs.Prelude.{◌≡◌, ◌≤◌, ◌<◌, [], All, fold, length, map, pos, true, ◌+ℤ◌, ◌-ℤ◌, ◌≤ℤ◌};
ghost use Rattle.sched_model.specs.Numbers.{below};
ghost use Rattle.world_core.specs.declared.cycle.Action.TheVariants.{Slot, Start};
ghost use Rattle.world_core.specs.declared.happened.Done.TheVariants.{Beacon as Beaconed, Requested, Restarted};
ghost use Rattle.world_core.specs.DoneSteps.{advance_done, end_done, entry_done, inputs_advanced, inputs_performed};
ghost use Rattle.world_core.specs.Happened.{bits_of};
ghost use Rattle.world_core.specs.Nodes.{AllMayBeTold, all_told, hearers};
ghost use Rattle.world_core.specs.NodeStates.{after_end, value_now};
ghost use Rattle.world_core.specs.Worlds.{cycle_at, node_at};
ghost use Rattle.world_core.specs.WorldSteps.{MayAdvance, MayCome, MayMove, MayPerform, MayTurn, advanced, after_request, arrived, beacon_now, bodies_advanced, bodies_performed, bodies_reset, host_at_beacon, is_over, mode_of, moved, next_begin, next_entry, node_restarted, opens, performed, reset_one, turned, with_node};

use crate::cycle::{Action, Entry};
use crate::happened::Done;
use crate::medium;
use crate::node::Node;
use app_graph::ListOf;
use beacon_codec::Beacon;
use mode_change::Host;
use node_core::Inputs;
use std::marker::Model;
use task_body::TaskBody;
use tick_num::Time;

/// The nodes, the host, the cycles of the modes and where the world stands in them.
#[derive(Drop)]
pub(crate) struct Kept {
    pub(crate) nodes: Vec<Node>,
    pub(crate) host: Host,
    pub(crate) host_node: u32,
    pub(crate) cycles: Vec<ListOf<Entry>>,
    pub(crate) hypers: Vec<Time>,
    // The node of each task, and the place of its body in the list that is handed in.
    pub(crate) owners: Vec<u32>,
    pub(crate) places: Vec<usize>,
    // The place of the next entry in the cycle of the host's mode.
    pub(crate) place: usize,
    // The first tick of the hyperperiod, and the tick of the last Advance.
    pub(crate) begin: Time,
    pub(crate) moment: Time,
}

impl Model for Kept {
    ghost use Rattle.world_core.specs.Worlds.{WorldSeen};

    ghost Value = { WorldSeen };

    ghost view = { λ w. record {
      nodes = w.nodes.items;
      host = w.host;
      host_node = w.host_node;
      cycles = w.cycles.items;
      hypers = w.hypers.items;
      owners = w.owners.items;
      places = w.places.items;
      place = w.place;
      begin = w.begin;
      moment = w.moment;
    } };
}

impl Kept {
    /// Performs the next entry, which these nodes lose. The inputs of a start come in place of others.
    pub(crate) fn advance(
        &mut self,
        lost: u64,
        bodies: &mut Vec<Box<dyn TaskBody>>,
        inputs: &mut Inputs,
    ) -> Done
        requires { MayAdvance self.old (length bodies.old.items) lost }

        ensures answer { result ≡ advance_done self.old lost }
        ensures inputs { inputs.new ≡ inputs_advanced self.old inputs.old }
        ensures state { self.new ≡ advanced self.old (map seen bodies.old.items) lost }
        ensures bodies { map seen bodies.new.items
            ≡ bodies_advanced self.old (map seen bodies.old.items) }
    {
        self.arrive();
        let entry = self.next_entry();
        self.go_to(self.moment_of(entry.tick));
        self.perform(entry.action, lost, bodies, inputs)
    }

    /// The tick of the last Advance.
    pub(crate) fn moment(&self) -> Time
        ensures { result ≡ self.now.moment }
    {
        self.moment
    }

    /// The running mode's cycle.
    fn cycle(&self) -> &[Entry]
        requires { mode_of self.now < length self.now.cycles }
        ensures { result.now ≡ cycle_at self.now (mode_of self.now) }
    {
        self.cycles[self.host.mode() as usize].as_slice()
    }

    /// Whether no entry of the cycle is left.
    fn is_over(&self) -> bool
        requires { mode_of self.now < length self.now.cycles }
        ensures { result ≡ is_over self.now }
    {
        self.place >= self.cycle().len()
    }

    /// Goes to the hyperperiod of the next entry.
    fn arrive(&mut self)
        requires mode { mode_of self.old < length self.old.cycles }
        requires turn { is_over self.old ≡ true → MayTurn self.old }
        ensures { self.new ≡ arrived self.old }
    {
        if self.is_over() {
            self.turn();
        }
    }

    /// Goes to the next hyperperiod.
    fn turn(&mut self)
        requires { MayTurn self.old }
        ensures { self.new ≡ turned self.old }
    {
        self.begin = self.next_begin();
        self.place = 0;
        self.host.end_round();
    }

    /// The first tick of the next hyperperiod.
    fn next_begin(&self) -> Time
        requires { MayTurn self.now }
        ensures { result ≡ next_begin self.now }
    {
        self.begin + self.hypers[self.host.mode() as usize]
    }

    /// The next entry.
    fn next_entry(&self) -> Entry
        requires mode { mode_of self.now < length self.now.cycles }
        requires left { self.now.place < length (cycle_at self.now (mode_of self.now)) }
        ensures { result ≡ next_entry self.now }
    {
        self.cycle()[self.place]
    }

    /// The entry to which the next Advance comes.
    fn coming_entry(&self) -> Entry
        requires { MayCome self.now }
        ensures { result ≡ next_entry (arrived self.now) }
    {
        if self.is_over() {
            self.cycles[self.host.mode_after_round() as usize].as_slice()[0]
        } else {
            self.next_entry()
        }
    }

    /// Whether the next Advance comes to a beacon.
    pub(crate) fn beacon_next(&self) -> bool
        requires { MayCome self.now }
        ensures { result ≡ opens (next_entry (arrived self.now)).action }
    {
        self.coming_entry().action.is_beacon()
    }

    /// The moment of the next entry, which has this tick.
    fn moment_of(&self, tick: Time) -> Time
        requires begin { (pos 0 ≤ℤ self.now.begin) × (self.now.begin ≤ℤ pos 9001000000000000000) }
        requires tick { (pos 0 ≤ℤ tick) × (tick ≤ℤ pos 1000000000000) }
        ensures { result ≡ self.now.begin +ℤ tick }
    {
        self.begin + tick
    }

    /// Lets the ticks up to this moment pass, and moves the place on.
    fn go_to(&mut self, moment: Time)
        requires { MayMove self.old moment }
        ensures { self.new ≡ moved self.old moment }
    {
        medium::pass(&mut self.nodes, ticks_between(self.moment, moment));
        self.place += 1;
        self.moment = moment;
    }

    /// Performs an entry, which these nodes lose.
    fn perform(
        &mut self,
        action: Action,
        lost: u64,
        bodies: &mut Vec<Box<dyn TaskBody>>,
        inputs: &mut Inputs,
    ) -> Done
        requires few { length self.old.nodes ≤ 64 }
        requires may { MayPerform self.old (length bodies.old.items) lost action }

        ensures answer { result ≡ entry_done self.old lost action }
        ensures inputs { inputs.new ≡ inputs_performed self.old action inputs.old }
        ensures state { self.new ≡ performed self.old (map seen bodies.old.items) lost action }
        ensures bodies { map seen bodies.new.items
            ≡ bodies_performed self.old (map seen bodies.old.items) action }
    {
        match action {
            Action::End { node, task } => self.end(node, task),
            Action::Beacon { .. } => self.beacon(lost),
            Action::Slot { slot, message } => self.slot(slot, message, lost),
            Action::Start { node, task } => self.start(node, task, bodies, inputs),
        }
    }

    /// The end of a task.
    fn end(&mut self, node: u32, task: u32) -> Done
        requires node { node < length self.old.nodes }
        requires task { task < 1024 }
        ensures answer { result
            ≡ end_done self.old.moment node task (value_now (node_at self.old node) task) }
        ensures state { self.new
            ≡ with_node self.old node (after_end (node_at self.old node) task) }
    {
        let at = self.moment;
        match self.nodes[node as usize].end(task) {
            Some(value) => Done::Ended {
                at,
                node,
                task,
                value,
            },
            None => Done::Void { at, node, task },
        }
    }

    /// Opens the next round: the host ends the round that it is in, and sends the beacon.
    fn open_round(&mut self) -> Beacon
        ensures beacon { result ≡ beacon_now self.old }
        ensures state { self.new ≡ record self.old { host = host_at_beacon self.old.host } }
    {
        if self.host.in_round() {
            self.host.end_round();
        }
        self.host.next_beacon()
    }

    /// The beacon of the next round.
    fn beacon(&mut self, lost: u64) -> Done
        requires few { length self.old.nodes ≤ 64 }
        requires told { AllMayBeTold self.old.nodes (beacon_now self.old) lost self.old.host_node }
        ensures answer { result ≡ Beaconed self.old.moment (beacon_now self.old)
            (bits_of (hearers (length self.old.nodes) lost self.old.host_node)) }
        ensures state { self.new ≡ record self.old {
          host = host_at_beacon self.old.host;
          nodes = all_told self.old.nodes (beacon_now self.old) lost self.old.host_node;
        } }
    {
        let beacon = self.open_round();
        let heard = medium::tell(&mut self.nodes, beacon, lost, self.host_node as usize);
        Done::Beacon {
            at: self.moment,
            beacon,
            heard,
        }
    }

    /// A slot with a message.
    fn slot(&mut self, slot: u8, message: u32, lost: u64) -> Done
        requires few { length self.old.nodes ≤ 64 }
        requires may { MayPerform self.old 0 lost (Slot slot message) }
        ensures answer { result ≡ entry_done self.old lost (Slot slot message) }
        ensures state { self.new ≡ performed self.old [] lost (Slot slot message) }
    {
        let at = self.moment;
        match medium::first_sending(&self.nodes, slot) {
            Some(sending) => {
                let taken = medium::give(
                    &mut self.nodes,
                    slot,
                    &sending.packet,
                    lost,
                    sending.node,
                );
                Done::Sent {
                    at,
                    node: sending.node as u32,
                    packet: sending.packet,
                    taken,
                }
            }
            None => Done::Silent { at, message },
        }
    }

    /// The start of a task.
    fn start(
        &mut self,
        node: u32,
        task: u32,
        bodies: &mut Vec<Box<dyn TaskBody>>,
        inputs: &mut Inputs,
    ) -> Done
        requires { MayPerform self.old (length bodies.old.items) 0 (Start node task) }
        ensures answer { result ≡ entry_done self.old 0 (Start node task) }
        ensures inputs { inputs.new ≡ inputs_performed self.old (Start node task) inputs.old }
        ensures state { self.new
            ≡ performed self.old (map seen bodies.old.items) 0 (Start node task) }
        ensures bodies { map seen bodies.new.items
            ≡ bodies_performed self.old (map seen bodies.old.items) (Start node task) }
    {
        let at = self.moment;
        let place = self.places[task as usize];
        if self.nodes[node as usize].start(task, bodies[place].as_mut(), inputs) {
            Done::Started { at, node, task }
        } else {
            Done::Off { at, node, task }
        }
    }

    /// Asks for a change to a mode.
    pub(crate) fn request(&mut self, mode: u32) -> Done
        requires { mode < length self.old.host.rounds }
        ensures answer { result ≡ Requested self.old.moment mode }
        ensures state { self.new ≡ after_request self.old mode }
    {
        self.host.request(mode);
        Done::Requested {
            at: self.moment,
            mode,
        }
    }

    /// Restarts a node, and resets the bodies of its tasks, by their numbers.
    pub(crate) fn restart(&mut self, node: u32, bodies: &mut Vec<Box<dyn TaskBody>>) -> Done
        requires node { node < length self.old.nodes }
        requires tasks { length self.old.owners ≤ 1024 }
        requires each { length self.old.places ≡ length self.old.owners }
        requires bodies { All (λ b. b < length bodies.old.items) self.old.places }
        ensures answer { result ≡ Restarted self.old.moment node }
        ensures state { self.new ≡ node_restarted self.old node }
        ensures bodies { map seen bodies.new.items
            ≡ bodies_reset self.old node (map seen bodies.old.items) }
    {
        self.nodes[node as usize].restart();
        reset(&self.owners, &self.places, node, bodies);
        Done::Restarted {
            at: self.moment,
            node,
        }
    }
}

/// The ticks from one moment to another, which is not before it.
fn ticks_between(from: Time, to: Time) -> Time
    requires { (pos 0 ≤ℤ from) × (from ≤ℤ to) }
    ensures { result ≡ to -ℤ from }
{
    to - from
}

/// Resets the bodies of the tasks of a node.
fn reset(owners: &[u32], places: &[usize], node: u32, bodies: &mut Vec<Box<dyn TaskBody>>)
    requires tasks { length owners.now ≤ 1024 }
    requires each { length places.now ≡ length owners.now }
    requires bodies { All (λ b. b < length bodies.old.items) places.now }
    ensures { map seen bodies.new.items ≡ fold (reset_one owners.now places.now node)
        (map seen bodies.old.items) (below (length owners.now)) }
{
    for task in 0..owners.len() {
        if owners[task] == node {
            bodies[places[task]].as_mut().reset(task as u32);
        }
    }
}

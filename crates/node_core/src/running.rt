//! A node that runs: where it stands, and its registers.

ghost use Rattle.std.specs.Prelude.{◌&&◌, ◌+ℤ◌, ◌-ℤ◌, ◌<◌, ◌<ℤ◌, ◌≡◌, ◌≤ℤ◌, cond, pos};
ghost use Rattle.std.specs.Ordering.{int_eq};
ghost use Rattle.runtime_model.specs.Placement.{not_negative, placed};
ghost use Rattle.node_core.specs.Conditions.{MayHear, MayMiss, MayPass, MayReceive, MayStart};
ghost use Rattle.node_core.specs.Fits.{TableFits};
ghost use Rattle.node_core.specs.Registers.{no_registers};
ghost use Rattle.node_core.specs.Rules.{announced, coasted, end_answer, ended, heard, inputs_now, passed, phase_known, received, sent, started, starts, takes, turned};
ghost use Rattle.node_core.specs.Running.{mode_of};
ghost use Rattle.task_body.specs.Body.{answer_of, fired};

use crate::lookup::{mode_at, own_message, own_slot, own_task, round_at, spot_of};
use crate::packet::{Inputs, Packet};
use crate::registers::Registers;
use beacon_codec::Beacon;
use node_tables::NodeTable;
use std::marker::Model;
use task_body::TaskBody;
use tick_num::Time;

/// What is kept of a node in any state. A Listening node keeps it for its table and the room of its registers.
#[derive(Drop)]
pub(crate) struct Running {
    table: NodeTable,
    heard: Beacon,
    mode: usize,
    round: usize,
    tick: Time,
    at_beacon: bool,
    opening: bool,
    draining: bool,
    registers: Registers,
}

impl Model for Running {
    ghost use Rattle.node_core.specs.Running.{RunningNode};
    ghost use Rattle.node_core.specs.Fits.{NodeFits};

    ghost Value = { RunningNode };

    ghost view = { λ n. record { table = n.table; heard = n.heard; mode = n.mode; round = n.round; tick = n.tick; at_beacon = n.at_beacon; opening = n.opening; draining = n.draining; registers = n.registers } };

    ghost invariant = { λ n. NodeFits (record { table = n.table; heard = n.heard; mode = n.mode; round = n.round; tick = n.tick; at_beacon = n.at_beacon; opening = n.opening; draining = n.draining; registers = n.registers }) };
}

impl Running {
    /// A node that has heard no beacon.
    pub(crate) fn new(table: NodeTable, registers: Registers) -> Self
        requires fits { TableFits table }
        requires empty { registers ≡ no_registers }
        ensures table { result.table ≡ table }
        ensures empty { result.registers ≡ no_registers }
    {
        Running {
            table,
            heard: Beacon {
                round: 0,
                mode: 0,
                trigger: false,
                opening: false,
            },
            mode: 0,
            round: 0,
            tick: 0,
            at_beacon: false,
            opening: false,
            draining: false,
            registers,
        }
    }

    /// Goes to the start of the round of a beacon. One of another mode than the node's empties the registers.
    pub(crate) fn hear(&mut self, b: Beacon)
        requires { MayHear self.old.table b }
        ensures { self.new ≡ heard self.old b }
    {
        let spot = spot_of(&self.table, b.round);
        if spot.mode != self.mode {
            self.registers.empty();
        }
        self.heard = b;
        self.mode = spot.mode;
        self.round = spot.round;
        self.tick = spot.start;
        self.at_beacon = true;
        self.opening = b.opening;
        self.draining = b.trigger;
    }

    /// Whether the last beacon that the node heard announced a change.
    pub(crate) fn announced(&self) -> bool
        ensures { result ≡ announced self.now }
    {
        self.heard.mode as usize != self.mode
    }

    /// Coasts past a beacon.
    pub(crate) fn coast(&mut self)
        requires { MayMiss self.old }
        ensures { self.new ≡ coasted self.old }
    {
        let rounds = mode_at(&self.table, self.mode).rounds.as_slice().len();
        self.round = if self.round + 1 < rounds {
            self.round + 1
        } else {
            0
        };
        self.at_beacon = true;
    }

    /// Empties the registers, and ends the run in progress.
    pub(crate) fn empty(&mut self)
        ensures table { self.new.table ≡ self.old.table }
        ensures empty { self.new.registers ≡ no_registers }
    {
        self.registers.empty();
    }

    /// Moves the tick on, into the next hyperperiod where it comes to this one's end.
    pub(crate) fn pass(&mut self, ticks: Time)
        requires { MayPass self.old ticks }
        ensures { self.new ≡ passed self.old ticks }
    {
        let hyper = mode_at(&self.table, self.mode).hyper;
        let tick = sum_of(self.tick, ticks);
        let at_beacon = is_still_at(self.at_beacon, ticks);
        if tick < hyper {
            self.go_on(tick, at_beacon);
        } else {
            self.turn(rest_of(tick, hyper));
        }
    }

    /// Whether the node's hyperperiod places an entry, where it is of an instance that is released in the hyperperiod or later.
    fn is_placed(&self, own: bool) -> bool
        ensures { result ≡ placed self.now.opening (phase_known self.now) own }
    {
        if self.opening {
            own
        } else if self.draining {
            !own
        } else {
            true
        }
    }

    /// What the node sends in a slot.
    pub(crate) fn slot(&self, slot: u8) -> Option<Packet>
        ensures { result ≡ sent self.now slot }
    {
        let mode = mode_at(&self.table, self.mode);
        let Some(own) = own_slot(round_at(mode, self.round), slot) else {
            return None;
        };
        if !self.is_placed(is_not_negative(own.release)) {
            return None;
        }
        let Some(message) = own_message(mode, own.message) else {
            return None;
        };
        self.registers.packet_of(message)
    }

    /// Takes the packet of a slot, where a task of the node consumes it. A copy after the first one is passed over
    /// where the in registers of all consumers are full.
    pub(crate) fn receive(&mut self, slot: u8, packet: &Packet) -> bool
        requires { MayReceive self.old slot packet.now }

        ensures state { self.new ≡ received self.old slot packet.now }
        ensures taken { result ≡ takes self.old slot }
    {
        let mode = mode_at(&self.table, self.mode);
        let Some(own) = own_slot(round_at(mode, self.round), slot) else {
            return false;
        };
        let Some(message) = own_message(mode, own.message) else {
            return false;
        };
        self.registers.receive(message, own.copy, &packet.values)
    }

    /// Whether the start of a task at the node's tick is placed.
    fn starts(&self, task: u32) -> bool
        requires { MayStart self.now task }
        ensures placed { result ≡ starts self.now task }
        ensures known { task < 1024 }
    {
        match own_task(mode_at(&self.table, self.mode), task) {
            Some(own) => self.is_placed(own.offset <= self.tick),
            None => false,
        }
    }

    /// Starts a task, where its start is placed: the body is fired with the inputs from its in registers.
    /// Answers whether it started.
    pub(crate) fn start(&mut self, task: u32, body: &mut dyn TaskBody, inputs: &mut Inputs) -> bool
        requires { MayStart self.old task }

        ensures answer { result ≡ starts self.old task }
        ensures inputs { inputs.new ≡ cond (starts self.old task) (inputs_now self.old task) inputs.old }
        ensures state { self.new ≡ started self.old task
            (answer_of (seen body.old) task (inputs_now self.old task)) }
        ensures body { seen body.new ≡ cond (starts self.old task)
            (fired (seen body.old) task (inputs_now self.old task)) (seen body.old) }
    {
        if !self.starts(task) {
            return false;
        }
        let messages = mode_at(&self.table, self.mode).messages.as_slice();
        self.registers.take_inputs(messages, task, inputs);
        let value = body.fire(task, inputs.as_slice());
        self.registers.begin(task, value);
        true
    }

    /// Ends the run of a task, where it is in progress.
    pub(crate) fn end(&mut self, task: u32) -> Option<i64>
        requires { task < 1024 }
        ensures state { self.new ≡ ended self.old task }
        ensures value { result ≡ end_answer self.old task }
    {
        self.registers.end(task)
    }

    /// Moves to a tick of the same hyperperiod.
    fn go_on(&mut self, tick: Time, at_beacon: bool)
        requires low { pos 0 ≤ℤ tick }
        requires high { tick <ℤ (mode_of self.old).hyper }
        ensures { self.new ≡ record self.old { tick = tick; at_beacon = at_beacon } }
    {
        self.tick = tick;
        self.at_beacon = at_beacon;
    }

    /// Moves to a tick of the next hyperperiod. The end of one that drains empties the registers.
    fn turn(&mut self, tick: Time)
        requires low { pos 0 ≤ℤ tick }
        requires high { tick <ℤ (mode_of self.old).hyper }
        ensures { self.new ≡ turned self.old tick }
    {
        if self.draining {
            self.registers.empty();
        }
        self.tick = tick;
        self.at_beacon = false;
        self.opening = false;
        self.draining = false;
    }
}

/// Whether a node that was at its beacon still is, so many ticks on.
fn is_still_at(at_beacon: bool, ticks: Time) -> bool
    ensures { result ≡ (at_beacon && int_eq ticks (pos 0)) }
{
    at_beacon && ticks == 0
}

/// A tick and some ticks more.
fn sum_of(tick: Time, ticks: Time) -> Time
    requires tick { (pos 0 ≤ℤ tick) × (tick ≤ℤ pos 1000000000000) }
    requires ticks { (pos 0 ≤ℤ ticks) × (ticks ≤ℤ pos 2000000000000) }
    ensures { result ≡ tick +ℤ ticks }
{
    tick + ticks
}

/// A tick, counted from the end of the hyperperiod.
fn rest_of(tick: Time, hyper: Time) -> Time
    requires tick { (pos 0 ≤ℤ tick) × (tick ≤ℤ pos 3000000000000) }
    requires hyper { (pos 0 ≤ℤ hyper) × (hyper ≤ℤ pos 1000000000000) }
    ensures { result ≡ tick -ℤ hyper }
{
    tick - hyper
}

/// Whether a release is at the hyperperiod's start or later.
fn is_not_negative(release: Time) -> bool
    ensures { result ≡ not_negative release }
{
    release >= 0
}

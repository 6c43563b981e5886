//! The three states of a node.

ghost use Rattle.std.specs.Prelude.{◌≡◌, ◌<◌, IfOk, cond};
ghost use Rattle.node_core.specs.Conditions.{MayHear, MayMiss, MayPass, MayReceive, MayStart, MayUseSlot};
ghost use Rattle.node_core.specs.Fits.{TableFits};
ghost use Rattle.node_core.specs.Kinds.{after_miss};
ghost use Rattle.node_core.specs.Rules.{end_answer, ended, first_heard, heard, inputs_now, passed, received, sent, start_answer, started, starts, takes};
ghost use Rattle.task_body.specs.Body.{answer_of, fired};

use crate::packet::{Inputs, Packet};
use crate::registers::Registers;
use crate::running::Running;
use beacon_codec::Beacon;
use node_tables::NodeTable;
use std::alloc::{AllocError, Global};
use std::marker::Model;
use task_body::TaskBody;
use tick_num::Time;

/// A node that waits for a beacon: it does nothing, and its registers are empty.
/// Contracts see its table.
#[derive(Drop)]
pub struct Listening {
    kept: Running,
}

/// A node that heard the last beacon. Contracts see where it stands, and its registers.
#[derive(Drop)]
pub struct Synced {
    kept: Running,
}

/// A node that missed the last beacon and heard the one before it. Contracts see the same as of a Synced one.
#[derive(Drop)]
pub struct Coasting {
    kept: Running,
}

/// What a Synced node is after a beacon that it missed.
#[derive(Drop)]
pub enum Missed {
    /// It goes on for one round.
    Coasted(Coasting),
    /// The last beacon that it heard announced a change, so it doesn't know its mode any more.
    StoodDown(Listening),
}

impl Model for Listening {
    ghost use Rattle.std.specs.Prelude.{◌≡◌};
    ghost use Rattle.node_tables.specs.declared.tables.NodeTable.{NodeTable};
    ghost use Rattle.node_core.specs.Registers.{no_registers};

    ghost Value = { NodeTable };

    ghost view = { λ n. n.kept.table };

    ghost invariant = { λ n. n.kept.registers ≡ no_registers };
}

impl Model for Synced {
    ghost use Rattle.node_core.specs.Running.{RunningNode};

    ghost Value = { RunningNode };

    ghost view = { λ n. n.kept };
}

impl Model for Coasting {
    ghost use Rattle.node_core.specs.Running.{RunningNode};

    ghost Value = { RunningNode };

    ghost view = { λ n. n.kept };
}

impl Listening {
    /// A node with this table, which is within the limits. Takes all the memory that the node will ever need;
    /// the one error is want of memory. docs/NODES.md has the rules of all calls, and their conditions.
    pub fn make(alloc: Global, table: NodeTable) -> Result<Self, AllocError>
        requires { TableFits table }
        ensures { IfOk result (λ n. n ≡ table) }
    {
        let registers = Registers::make(alloc)?;
        Ok(Listening {
            kept: Running::new(table, registers),
        })
    }

    /// Hears a beacon of a round of the table, and goes to the start of that round.
    pub fn hear(mut self, b: Beacon) -> Synced
        requires { MayHear self b }
        ensures { result ≡ first_heard self b }
    {
        self.kept.hear(b);
        Synced { kept: self.kept }
    }

    /// Restarts: a Listening node stays as it is.
    pub fn restart(self) -> Listening
        ensures { result ≡ self }
    {
        self
    }
}

impl Synced {
    /// Hears the next beacon, and goes to the start of its round.
    /// A beacon of a round of another mode than the node's empties the registers and ends the run in progress.
    pub fn hear(mut self, b: Beacon) -> Synced
        requires { MayHear self.table b }
        ensures { result ≡ heard self b }
    {
        self.kept.hear(b);
        Synced { kept: self.kept }
    }

    /// Hears the next beacon as `hear` does, in place.
    pub fn hear_on(&mut self, b: Beacon)
        requires { MayHear self.old.table b }
        ensures { self.new ≡ heard self.old b }
    {
        self.kept.hear(b);
    }

    /// Misses the beacon of the next round, to whose start the node has come.
    pub fn miss(mut self) -> Missed
        requires { MayMiss self }
        ensures { result ≡ after_miss self }
    {
        if self.kept.announced() {
            Missed::StoodDown(stood_down(self.kept))
        } else {
            self.kept.coast();
            Missed::Coasted(Coasting { kept: self.kept })
        }
    }

    /// Restarts: the registers are empty, and the run in progress ends without an answer.
    pub fn restart(self) -> Listening
        ensures { result ≡ self.table }
    {
        stood_down(self.kept)
    }

    /// Lets `ticks` pass, at least 0, not beyond the next round's start.
    /// The end of a hyperperiod that the node knows to drain empties the registers and ends the run in progress.
    pub fn pass(&mut self, ticks: Time)
        requires { MayPass self.old ticks }
        ensures { self.new ≡ passed self.old ticks }
    {
        self.kept.pass(ticks);
    }

    /// What the node sends in the slot, from 1 to 32, of the round whose beacon it has just heard.
    /// None where the slot isn't one of its own or isn't placed, where it doesn't send the slot's message,
    /// or where the out register of a producer is empty.
    pub fn slot(&self, slot: u8) -> Option<Packet>
        requires { MayUseSlot self.now slot }
        ensures { result ≡ sent self.now slot }
    {
        self.kept.slot(slot)
    }

    /// Takes the packet that came in the slot, and answers whether it did. It does not exactly where no task of the node
    /// consumes the packet's message, or where the slot's copy is 2 or more and the in registers of all the node's
    /// consumers of the message are full.
    pub fn receive(&mut self, slot: u8, packet: &Packet) -> bool
        requires { MayReceive self.old slot packet.now }
        ensures state { self.new ≡ received self.old slot packet.now }
        ensures taken { result ≡ takes self.old slot }
    {
        self.kept.receive(slot, packet)
    }

    /// Starts a task of the node's mode that is due at its tick, where the start is placed: fires
    /// the body with the inputs from the task's in registers, which are then empty, and begins a
    /// run, while no other is in progress. Answers the inputs. A start that isn't placed changes nothing.
    pub fn start(&mut self, task: u32, body: &mut dyn TaskBody) -> Option<Inputs>
        requires { MayStart self.old task }

        ensures answer { result ≡ start_answer self.old task }
        ensures state { self.new ≡ started self.old task
            (answer_of (seen body.old) task (inputs_now self.old task)) }
        ensures body { seen body.new ≡ cond (starts self.old task)
            (fired (seen body.old) task (inputs_now self.old task)) (seen body.old) }
    {
        let mut inputs = Inputs::new();
        if self.kept.start(task, body, &mut inputs) {
            Some(inputs)
        } else {
            None
        }
    }

    /// Starts a task as `start` does, and puts the inputs in place of others. Answers whether it started.
    /// Where it did not, the other inputs stay.
    pub fn start_with(&mut self, task: u32, body: &mut dyn TaskBody, inputs: &mut Inputs) -> bool
        requires { MayStart self.old task }

        ensures answer { result ≡ starts self.old task }
        ensures inputs { inputs.new ≡ cond (starts self.old task) (inputs_now self.old task) inputs.old }
        ensures state { self.new ≡ started self.old task
            (answer_of (seen body.old) task (inputs_now self.old task)) }
        ensures body { seen body.new ≡ cond (starts self.old task)
            (fired (seen body.old) task (inputs_now self.old task)) (seen body.old) }
    {
        self.kept.start(task, body, inputs)
    }

    /// Ends the run of the task: its value goes to the task's out register, and is the answer.
    /// None, and nothing changes, exactly where no run of the task is in progress. Tasks are below 1,024.
    pub fn end(&mut self, task: u32) -> Option<i64>
        requires { task < 1024 }
        ensures state { self.new ≡ ended self.old task }
        ensures value { result ≡ end_answer self.old task }
    {
        self.kept.end(task)
    }
}

impl Coasting {
    /// Hears the next beacon, as a Synced node does.
    pub fn hear(mut self, b: Beacon) -> Synced
        requires { MayHear self.table b }
        ensures { result ≡ heard self b }
    {
        self.kept.hear(b);
        Synced { kept: self.kept }
    }

    /// Misses a second beacon: the registers are empty, and the run in progress ends without an answer.
    pub fn miss(self) -> Listening
        requires { MayMiss self }
        ensures { result ≡ self.table }
    {
        let Coasting { kept } = self;
        stood_down(kept)
    }

    /// Restarts, as a Synced node does.
    pub fn restart(self) -> Listening
        ensures { result ≡ self.table }
    {
        stood_down(self.kept)
    }

    /// Lets `ticks` pass, as for a Synced node.
    pub fn pass(&mut self, ticks: Time)
        requires { MayPass self.old ticks }
        ensures { self.new ≡ passed self.old ticks }
    {
        self.kept.pass(ticks);
    }

    /// Starts a task of the node's mode that is due at its tick, where the start is placed: fires
    /// the body with the inputs from the task's in registers, which are then empty, and begins a
    /// run, while no other is in progress. Answers the inputs. A start that isn't placed changes nothing.
    pub fn start(&mut self, task: u32, body: &mut dyn TaskBody) -> Option<Inputs>
        requires { MayStart self.old task }

        ensures answer { result ≡ start_answer self.old task }
        ensures state { self.new ≡ started self.old task
            (answer_of (seen body.old) task (inputs_now self.old task)) }
        ensures body { seen body.new ≡ cond (starts self.old task)
            (fired (seen body.old) task (inputs_now self.old task)) (seen body.old) }
    {
        let mut inputs = Inputs::new();
        if self.kept.start(task, body, &mut inputs) {
            Some(inputs)
        } else {
            None
        }
    }

    /// Starts a task as `start` does, and puts the inputs in place of others. Answers whether it started.
    /// Where it did not, the other inputs stay.
    pub fn start_with(&mut self, task: u32, body: &mut dyn TaskBody, inputs: &mut Inputs) -> bool
        requires { MayStart self.old task }

        ensures answer { result ≡ starts self.old task }
        ensures inputs { inputs.new ≡ cond (starts self.old task) (inputs_now self.old task) inputs.old }
        ensures state { self.new ≡ started self.old task
            (answer_of (seen body.old) task (inputs_now self.old task)) }
        ensures body { seen body.new ≡ cond (starts self.old task)
            (fired (seen body.old) task (inputs_now self.old task)) (seen body.old) }
    {
        self.kept.start(task, body, inputs)
    }

    /// Ends the run of the task: its value goes to the task's out register, and is the answer.
    /// None, and nothing changes, exactly where no run of the task is in progress. Tasks are below 1,024.
    pub fn end(&mut self, task: u32) -> Option<i64>
        requires { task < 1024 }
        ensures state { self.new ≡ ended self.old task }
        ensures value { result ≡ end_answer self.old task }
    {
        self.kept.end(task)
    }
}

/// A node that waits for a beacon again: its registers are empty, and its run in progress ends without an answer.
fn stood_down(mut kept: Running) -> Listening
    ensures { result ≡ kept.table }
{
    kept.empty();
    Listening { kept }
}

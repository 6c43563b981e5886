//! The world as its callers see it.

ghost use Rattle.std.specs.Prelude.{◌≡◌, ◌<◌, ◌≤ℤ◌, [], All, IfOk, length, map, pos};
ghost use Rattle.app_graph.specs.Validation.{KeepsRules};
ghost use Rattle.runtime_model.specs.Plans.{AreSchedules};
ghost use Rattle.world_core.specs.Asking.{IsAsked};
ghost use Rattle.world_core.specs.Done.{whole};
ghost use Rattle.world_core.specs.KeptWorlds.{MayHappen};
ghost use Rattle.world_core.specs.NextBeacons.{TellsNext};
ghost use Rattle.world_core.specs.StandsFor.{HaveBodies, StandsFor};
ghost use Rattle.world_core.specs.WorldGoesOn.{GoesOn};
ghost use Rattle.world_core.specs.WorldKeeps.{StaysSame};

use crate::happened::{Done, Event, Happened};
use crate::kept::Kept;
use crate::make::make_kept;
use app_graph::ModeSet;
use node_core::Inputs;
use sched_model::Schedule;
use std::alloc::{AllocError, Global};
use std::marker::Model;
use task_body::TaskBody;
use tick_num::Time;

/// The nodes, the host and the medium of a set with its plans, at the tick to which they were stepped.
/// Contracts see its parts. docs/WORLD.md has the rules.
#[derive(Drop)]
pub struct World {
    kept: Kept,
}

impl Model for World {
    ghost use Rattle.world_core.specs.Worlds.{WorldSeen};
    ghost use Rattle.world_core.specs.KeptWorlds.{IsWorld};

    ghost Value = { WorldSeen };

    ghost view = { λ w. w.kept };

    ghost invariant = { λ w. IsWorld w.kept };
}

impl World {
    /// The world before its first event: every node waits for a beacon, and the host is in mode 0.
    ///
    /// `plans` has a right schedule for each mode of the set, and each task's body is the first of
    /// `bodies` that has its body's name; `missing_body` tells whether there is one. Takes all the
    /// memory that the world will ever need; the one error is want of memory.
    pub fn make(
        alloc: Global,
        set: &ModeSet,
        plans: &[Schedule],
        bodies: &Vec<Box<dyn TaskBody>>,
    ) -> Result<Self, AllocError>
        requires rules { KeepsRules set.now }
        requires schedules { AreSchedules set.now plans.now }
        requires bodies { HaveBodies set.now (map seen bodies.now.items) }

        ensures { IfOk result (λ w. StandsFor set.now plans.now (map seen bodies.now.items)
            w (map seen bodies.now.items) []) }
    {
        Ok(World {
            kept: make_kept(alloc, set, plans, bodies)?,
        })
    }

    /// The tick of the last Advance, from the world's start; 0 before the first.
    pub fn now(&self) -> Time
        ensures { result ≡ self.now.moment }
    {
        self.kept.moment()
    }

    /// Whether the next Advance comes to a beacon.
    pub fn beacon_next(&self) -> bool
        ensures { TellsNext self.now result }
    {
        self.kept.beacon_next()
    }

    /// Performs one event, and answers what it did. `bodies` are those of the world's making: each task
    /// fires the first that has its body's name. A world may be stepped up to the tick
    /// 9,000,000,000,000,000,000, takes no memory, and always performs its event.
    pub fn step(&mut self, event: Event, bodies: &mut Vec<Box<dyn TaskBody>>) -> Happened
        requires time { self.old.moment ≤ℤ pos 9000000000000000000 }
        requires event { MayHappen self.old event }
        requires bodies { All (λ b. b < length bodies.old.items) self.old.places }

        ensures goes_on { GoesOn self.old (map seen bodies.old.items) self.new (map seen bodies.new.items)
            event result }
        ensures asked { IsAsked self.old result }

        ensures same { StaysSame self.old self.new }
        ensures count { length bodies.new.items ≡ length bodies.old.items }
    {
        let mut inputs = Inputs::new();
        let done = self.step_with(event, bodies, &mut inputs);
        done.with(inputs)
    }

    /// Performs one event as `step` does, without moving inputs: those of a start come in place of
    /// the ones that are handed in.
    pub fn step_with(
        &mut self,
        event: Event,
        bodies: &mut Vec<Box<dyn TaskBody>>,
        inputs: &mut Inputs,
    ) -> Done
        requires time { self.old.moment ≤ℤ pos 9000000000000000000 }
        requires event { MayHappen self.old event }
        requires bodies { All (λ b. b < length bodies.old.items) self.old.places }

        ensures goes_on { GoesOn self.old (map seen bodies.old.items) self.new (map seen bodies.new.items)
            event (whole result inputs.new) }
        ensures asked { IsAsked self.old (whole result inputs.new) }

        ensures same { StaysSame self.old self.new }
        ensures count { length bodies.new.items ≡ length bodies.old.items }
    {
        match event {
            Event::Advance(lost) => self.kept.advance(lost, bodies, inputs),
            Event::Request(mode) => self.kept.request(mode),
            Event::Restart(node) => self.kept.restart(node, bodies),
        }
    }
}

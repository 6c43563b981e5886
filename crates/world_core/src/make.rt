//! The making of a world.

ghost use Rattle.std.specs.Prelude.{◌≡◌, ◌<◌, IfOk, [], length, map};
ghost use Rattle.app_graph.specs.Validation.{KeepsRules};
ghost use Rattle.runtime_model.specs.Plans.{AreSchedules, plans_of};
ghost use Rattle.sched_model.specs.Numbers.{below};
ghost use Rattle.world_core.specs.KeptWorlds.{IsWorld};
ghost use Rattle.world_core.specs.Making.{listener};
ghost use Rattle.world_core.specs.StandsFor.{HaveBodies, StandsFor};

use crate::bodies::places;
use crate::cycle::{cycles, hypers};
use crate::kept::Kept;
use crate::node::Node;
use crate::owners::owners;
use app_graph::ModeSet;
use mode_change::Host;
use node_core::Listening;
use node_tables::tables_of;
use sched_model::Schedule;
use std::alloc::{AllocError, Global};
use task_body::TaskBody;

/// The node with this number, which listens with its part of the plans.
fn make_node(
    alloc: Global,
    set: &ModeSet,
    plans: &[Schedule],
    node: u32,
) -> Result<Node, AllocError>
    requires rules { KeepsRules set.now }
    requires schedules { AreSchedules set.now plans.now }
    requires node { node < length set.now.nodes }

    ensures { IfOk result (λ n. n ≡ listener (plans_of set.now plans.now) node) }
{
    let table = tables_of(alloc, set, plans, node)?;
    Ok(Node::new(Listening::make(alloc, table)?))
}

/// All nodes before the first beacon.
fn make_nodes(alloc: Global, set: &ModeSet, plans: &[Schedule]) -> Result<Vec<Node>, AllocError>
    requires rules { KeepsRules set.now }
    requires schedules { AreSchedules set.now plans.now }

    ensures { IfOk result (λ v. v.items
        ≡ map (listener (plans_of set.now plans.now)) (below (length set.now.nodes))) }
{
    let mut nodes = Vec::new(alloc);
    for node in 0..set.nodes.as_slice().len() {
        nodes.push(make_node(alloc, set, plans, node as u32)?)?;
    }
    Ok(nodes)
}

/// The world before its first event, where `plans` has the schedule of each mode in order.
pub(crate) fn make_kept(
    alloc: Global,
    set: &ModeSet,
    plans: &[Schedule],
    bodies: &Vec<Box<dyn TaskBody>>,
) -> Result<Kept, AllocError>
    requires rules { KeepsRules set.now }
    requires schedules { AreSchedules set.now plans.now }
    requires bodies { HaveBodies set.now (map seen bodies.now.items) }

    ensures stands { IfOk result (λ w. StandsFor set.now plans.now (map seen bodies.now.items) w
        (map seen bodies.now.items) []) }
    ensures kept { IfOk result IsWorld }
{
    Ok(Kept {
        nodes: make_nodes(alloc, set, plans)?,
        host: Host::make(alloc, set, plans)?,
        host_node: set.host,
        cycles: cycles(alloc, set, plans)?,
        hypers: hypers(alloc, set)?,
        owners: owners(alloc, set)?,
        places: places(alloc, set, bodies)?,
        place: 0,
        begin: 0,
        moment: 0,
    })
}

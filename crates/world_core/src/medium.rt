//! What reaches the nodes: ticks, beacons and packets, each in the order of the nodes.

ghost use Rattle.std.specs.Prelude.{◌≡◌, ◌≤◌, ◌<◌, ◌+◌, ◌^◌, MatchOption, None, Some, cond, length};
ghost use Rattle.runtime_model.specs.Packets.{in_set, reached};
ghost use Rattle.world_core.specs.Happened.{bits_of};
ghost use Rattle.world_core.specs.Nodes.{at, AllMayBeTold, AllMayPass, AllMayReceive, AllMayUseSlot, all_after, all_given, all_told, hearers, sender_in, takers};
ghost use Rattle.world_core.specs.NodeStates.{sent_now};

use crate::node::Node;
use beacon_codec::Beacon;
use node_core::Packet;
use tick_num::Time;

/// How many nodes there are at most: a set of nodes has a bit for each.
pub(crate) const NODES: usize = 64;

/// Whether the node is in the set.
fn is_in(bits: u64, node: usize) -> bool
    requires { node < 64 }
    ensures { result ≡ in_set bits node }
{
    (bits >> node) % 2 == 1
}

/// Whether what the sender sends reaches the node: it does unless it is lost to it.
fn reaches(lost: u64, sender: usize, node: usize) -> bool
    requires { node < 64 }
    ensures { result ≡ reached lost sender node }
{
    node == sender || !is_in(lost, node)
}

/// A set of nodes below `node`, and that node too where it is in the set.
fn with_node(bits: u64, node: usize, is_in: bool) -> u64
    requires node { node < 64 }
    requires below { bits < 2 ^ node }
    ensures { result ≡ bits + cond is_in (2 ^ node) 0 }
{
    if is_in { bits + (1 << node) } else { bits }
}

/// Lets ticks pass at all nodes.
pub(crate) fn pass(nodes: &mut [Node], ticks: Time)
    requires { AllMayPass nodes.old ticks }
    ensures { nodes.new ≡ all_after nodes.old ticks }
{
    for node in nodes {
        node.pass(ticks);
    }
}

/// Gives a beacon of the host to all nodes: those to which it is lost miss it. Answers who heard it.
pub(crate) fn tell(nodes: &mut [Node], beacon: Beacon, lost: u64, host: usize) -> u64
    requires few { length nodes.old ≤ 64 }
    requires each { AllMayBeTold nodes.old beacon lost host }

    ensures heard { result ≡ bits_of (hearers (length nodes.old) lost host) }
    ensures nodes { nodes.new ≡ all_told nodes.old beacon lost host }
{
    let mut heard = 0;
    for v in 0..nodes.len() {
        let hears = reaches(lost, host, v);
        nodes[v].tell(hears, beacon);
        heard = with_node(heard, v, hears);
    }
    heard
}

/// The node that sends in a slot, and its packet.
#[derive(Drop)]
pub(crate) struct Sending {
    pub(crate) node: usize,
    pub(crate) packet: Packet,
}

/// Asks the nodes in order for what they send in a slot, up to the first that sends.
pub(crate) fn first_sending(nodes: &[Node], slot: u8) -> Option<Sending>
    requires { AllMayUseSlot nodes.now slot }
    ensures { MatchOption result (sender_in nodes.now slot ≡ None) (λ s.
        (sender_in nodes.now slot ≡ Some s.node)
        × (sent_now (at nodes.now s.node) slot ≡ Some s.packet)) }
{
    for v in 0..nodes.len() {
        if let Some(packet) = nodes[v].slot(slot) {
            return Some(Sending { node: v, packet });
        }
    }
    None
}

/// Gives the packet of a slot to all nodes that it reaches. Answers who took it.
pub(crate) fn give(nodes: &mut [Node], slot: u8, packet: &Packet, lost: u64, sender: usize) -> u64
    requires few { length nodes.old ≤ 64 }
    requires each { AllMayReceive nodes.old slot packet.now }

    ensures taken { result ≡ bits_of (takers nodes.old slot lost sender) }
    ensures nodes { nodes.new ≡ all_given nodes.old slot packet.now lost sender }
{
    let mut taken = 0;
    for v in 0..nodes.len() {
        let takes = nodes[v].offer(reaches(lost, sender, v), slot, packet);
        taken = with_node(taken, v, takes);
    }
    taken
}

//! Names of a script as numbers of a mode set.

ghost use Rattle.std.specs.Prelude.{◌≡◌, ◌≤◌, length, is_some, position};
ghost use Rattle.std.specs.List.{list_all};
ghost use Rattle.std.specs.Str.{bytes_eq};
ghost use Rattle.app_graph.specs.ValueRules.{among};
ghost use Rattle.replay_script.specs.Script.{lost, mode_of, node_of};

use app_graph::{Mode, ModeSet, Name};
use ttw_text::Parts;

/// The place of the first node with a name.
fn node_place(nodes: &[Name], name: &[u8]) -> Option<usize>
    ensures { result ≡ position (bytes_eq name.now) nodes.now }
{
    nodes.iter().position(|node| name == node.as_bytes())
}

/// The place of the first mode with a name.
fn mode_place(modes: &[Mode], name: &[u8]) -> Option<usize>
    ensures { result ≡ position (λ mode. bytes_eq name.now mode.name) modes.now }
{
    modes.iter().position(|mode| name == mode.name.as_bytes())
}

/// The number of the node with a name.
pub(crate) fn node_of(set: &ModeSet, name: &[u8]) -> Option<u32>
    requires { length set.now.nodes ≤ 64 }
    ensures { result ≡ node_of set.now name.now }
{
    match node_place(set.nodes.as_slice(), name) {
        None => None,
        Some(node) => Some(node as u32),
    }
}

/// The number of the mode with a name.
pub(crate) fn mode_of(set: &ModeSet, name: &[u8]) -> Option<u32>
    requires { length set.now.modes ≤ 8 }
    ensures { result ≡ mode_of set.now name.now }
{
    match mode_place(set.modes.as_slice(), name) {
        None => None,
        Some(mode) => Some(mode as u32),
    }
}

/// Whether each of the names is that of a node.
pub(crate) fn are_nodes(set: &ModeSet, names: &Parts<'_>) -> bool
    requires { length set.now.nodes ≤ 64 }
    ensures { result ≡ list_all (λ name. is_some (node_of set.now name)) names.now }
{
    names.again().all(|name| node_of(set, name).is_some())
}

/// Whether a node is among the named ones.
fn is_named(node: &Name, names: &Parts<'_>) -> bool
    ensures { result ≡ among node.now names.now }
{
    names.again().any(|name| node.as_bytes() == name)
}

/// The named nodes as a set: the bit of a node is 1 where its name is among them.
pub(crate) fn lost_nodes(set: &ModeSet, names: &Parts<'_>) -> u64
    requires { length set.now.nodes ≤ 64 }
    ensures { result ≡ lost set.now names.now }
{
    let mut bits = 0;
    for (place, node) in set.nodes.as_slice().iter().enumerate() {
        if is_named(node, names) {
            bits |= 1u64 << place;
        }
    }
    bits
}

//! What the states of nodes have to do with the definitions of the runtime.

ghost use Rattle.node_core.specs.Kinds.{MissesByTheRule};
ghost use Rattle.node_core.specs.Laws.{KeptByRules, PartsFit, PartsLookUp, RegistersByRules};

/// A Synced node that misses a beacon is in the state that the runtime's rule of a missed beacon gives.
pub fn misses_by_the_rule()
    ensures { MissesByTheRule }
{}

/// Each call keeps what holds of every node that runs, where the call's condition holds.
pub fn rules_keep_limits()
    ensures { KeptByRules }
{}

/// What an end, a packet and a start do to each register, and that they leave all others.
pub fn registers_by_rules()
    ensures { RegistersByRules }
{}

/// The part of the plans that concerns a node is within the limits of a table, so that a node can be made with it.
pub fn parts_fit()
    ensures { PartsFit }
{}

/// What a node looks up in its part of right plans is what the plans say: rounds and their modes, its tasks, its messages, their slots and consumers.
pub fn parts_look_up()
    ensures { PartsLookUp }
{}

//! Laws of worlds. Each holds for every list of events.

ghost use Rattle.world_core.specs.Laws.{OneSender};

/// At most one node sends in a slot: the sender of the slot's message, where it holds the values of
/// the slot's window, and its packet has these values.
pub fn one_sender()
    ensures { OneSender }
{}

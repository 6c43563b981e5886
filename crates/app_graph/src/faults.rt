//! What is wrong with a mode set as it is written.

use crate::keys::Key;
use crate::names::Name;
use std::alloc::AllocError;

/// The first broken rule on values and graphs, or that memory ran out.
#[derive(Drop)]
pub enum GraphFault {
    /// The value of this key is out of its range, or has not the spelling of a name.
    OutOfRange(Key),
    /// This name stands twice.
    Repeated(Name),
    /// This name is no node or no task of the application.
    Unknown(Name),
    /// The producers of this message are on two nodes.
    TwoSenders(Name),
    /// A task of this application is reached from itself.
    Cycle(Name),
    /// The deadline of this application is beyond its mode's hyperperiod.
    DeadlineLong(Name),
    /// There are more of these than the limit.
    TooMany(Key),
    /// Memory ran out.
    Memory,
}

impl From<AllocError> for GraphFault {
    ghost use Rattle.std.specs.Prelude.{◌≡◌};
    ghost use Rattle.app_graph.specs.declared.faults.GraphFault.TheVariants.{Memory};

    ghost from_gives = { λ _ fault. fault ≡ Memory };

    fn from(_error: AllocError) -> GraphFault {
        GraphFault::Memory
    }
}

//! The law that ties places over plain numbers to the constraint problem of a mode.

ghost use Rattle.node_use.specs.Between.{PairsAreDecisions};

/// Alternatives and constraints from two tasks' durations are those of their decision in the mode's constraint problem.
pub fn pairs_are_decisions()
    ensures { PairsAreDecisions }
{}

//! The laws that tie choices over plain numbers to the constraint problem of a mode.

ghost use Rattle.round_service.specs.Serving.{ChoicesAreDecisions, LoadsAreCounts};

/// Alternatives and constraints from a message's numbers are those of its decisions in the mode's constraint problem.
pub fn choices_are_decisions()
    ensures { ChoicesAreDecisions }
{}

/// The load of a round in the constraint problem is how many of the messages' choices name that round.
pub fn loads_are_counts()
    ensures { LoadsAreCounts }
{}

//! What the definitions say of small modes, by computation.

ghost use Rattle.sched_model.specs.Examples.{BlinkExample, DoubleExample, HalfExample, LoopExample, SharedExample};

/// A control loop of three tasks: its problem for one round and for two, the tree that refutes one, its schedule of two,
/// and that a second round one tick earlier misses its window.
pub fn control_loop()
    ensures { LoopExample }
{}

/// The loop whose first message has two copies: its decisions, and a schedule of three rounds.
pub fn two_copies()
    ensures { DoubleExample }
{}

/// A message with two instances in a hyperperiod: the second follows the first within the rounds of a hyperperiod.
pub fn two_instances()
    ensures { HalfExample }
{}

/// Two tasks of one node, which fit between each other or do not.
pub fn shared_node()
    ensures { SharedExample }
{}

/// A mode without messages, whose rounds are needed for the gap alone, and what its search costs.
pub fn rounds_for_gap()
    ensures { BlinkExample }
{}

//! Laws on graphs and hyperperiods.

ghost use Rattle.app_graph.specs.Cycles.{CycleLaw};
ghost use Rattle.app_graph.specs.Hyperperiod.{HyperperiodLaw};

/// The hyperperiod is the least common multiple of the periods.
pub fn hyperperiod_law()
    ensures { HyperperiodLaw }
{}

/// An application has a cycle exactly where a walk of any length leads from one of its tasks back to it.
pub fn cycle_law()
    ensures { CycleLaw }
{}

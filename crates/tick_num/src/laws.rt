//! Laws on whole numbers that all scheduling stands on.

ghost use Rattle.tick_num.specs.Classes.{GcdClassLaw};
ghost use Rattle.tick_num.specs.Differences.{CyclesExclude, LeastOrCycle, LeastUnique};

/// The runs of two tasks never meet exactly where some place between the runs of the one, moved by
/// multiples of the greatest common divisor of the periods, holds the runs of the other.
pub fn gcd_class_law()
    ensures { GcdClassLaw }
{}

/// A list of constraints with a negative cycle has no solution.
pub fn cycles_exclude()
    ensures { CyclesExclude }
{}

/// A list of constraints over `n` variables has least values, or else a negative cycle of one to
/// `n` constraints.
pub fn least_or_cycle()
    ensures { LeastOrCycle }
{}

/// A list of constraints has one family of least values at most.
pub fn least_unique()
    ensures { LeastUnique }
{}

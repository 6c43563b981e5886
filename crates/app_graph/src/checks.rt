//! Single tests of rules, each with the fault of its rule.

ghost use Rattle.std.specs.Prelude.{◌≡◌};
ghost use Rattle.app_graph.specs.Checks.{Checks};
ghost use Rattle.app_graph.specs.Rules.{unless};
ghost use Rattle.app_graph.specs.ValueRules.{within};

use crate::faults::GraphFault;
use crate::keys::Key;
use crate::names::Name;
use std::alloc::Global;

/// The value of the key is in its range where the test holds.
pub(crate) fn in_range(test: bool, key: Key) -> Result<(), GraphFault>
    ensures { Checks result (unless test (GraphFault.OutOfRange key)) }
{
    if test {
        Ok(())
    } else {
        Err(GraphFault::OutOfRange(key))
    }
}

/// There are not too many of these where the test holds.
pub(crate) fn few(test: bool, key: Key) -> Result<(), GraphFault>
    ensures { Checks result (unless test (GraphFault.TooMany key)) }
{
    if test {
        Ok(())
    } else {
        Err(GraphFault::TooMany(key))
    }
}

/// The name stands for the first time where the test holds.
pub(crate) fn new_name(alloc: Global, test: bool, name: &Name) -> Result<(), GraphFault>
    ensures { Checks result (unless test (GraphFault.Repeated name.now)) }
{
    if test {
        return Ok(());
    }
    Err(GraphFault::Repeated(name.copy(alloc)?))
}

/// The name is known where the test holds.
pub(crate) fn known(alloc: Global, test: bool, name: &Name) -> Result<(), GraphFault>
    ensures { Checks result (unless test (GraphFault.Unknown name.now)) }
{
    if test {
        return Ok(());
    }
    Err(GraphFault::Unknown(name.copy(alloc)?))
}

/// Whether a number is within its bounds.
pub(crate) fn is_within(low: i64, high: i64, number: i64) -> bool
    ensures { result ≡ within low high number }
{
    if low > number {
        return false;
    }
    number <= high
}

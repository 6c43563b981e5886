//! From a mode file as it is written to a mode set.

ghost use Rattle.std.specs.Prelude.{IfOk};
ghost use Rattle.app_graph.specs.Validation.{KeepsRules, Validates};

use crate::faults::GraphFault;
use crate::mode_rules::check_set;
use crate::mode_set::ModeSet;
use crate::numbering::number_set;
use crate::raw::RawSet;
use std::alloc::Global;

/// The mode set that the file says. Errors: the fault of the first broken rule on values and graphs; want of memory.
pub fn validate(alloc: Global, raw: &RawSet) -> Result<ModeSet, GraphFault>
    ensures exact { Validates raw.now result }
    ensures keeps { IfOk result KeepsRules }
{
    check_set(alloc, raw)?;
    Ok(number_set(alloc, raw)?)
}

//! The script of the drill.

ghost use Rattle.std.specs.Prelude.{◌≡◌, ℕ, IfOk};
ghost use Rattle.replay_script.specs.Fitting.{FitsScript};
ghost use Rattle.drill.specs.Generated.{drill_set};
ghost use Rattle.drill.specs.Script.{drill_script};

use crate::generated::MODES;
use replay_script::Line;
use std::alloc::{AllocError, Global};

/// The Advances of two hyperperiods, of 168 entries each.
const TWO_HYPERPERIODS: u64 = 336;

/// The Advances of three hyperperiods.
const THREE_HYPERPERIODS: u64 = 504;

/// Two hyperperiods in mode 0, and then for each other mode its request and three hyperperiods.
#[tactic(auto, using(crate::proofs::Visits::visits_none))]
pub fn script(alloc: Global) -> Result<Vec<Line>, AllocError>
    ensures lines { IfOk result (λ v. v.items ≡ drill_script) }

    ensures fits { (seed : ℕ) → IfOk result (λ v. FitsScript (drill_set seed) v.items) }
{
    let mut lines = Vec::new(alloc);
    lines.push(Line::Go(TWO_HYPERPERIODS))?;
    for mode in 1..MODES {
        lines.push(Line::Request(mode))?;
        lines.push(Line::Go(THREE_HYPERPERIODS))?;
    }
    Ok(lines)
}

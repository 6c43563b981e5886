//! The plan of a mode.

ghost use Rattle.std.specs.Prelude.{◌≡◌, ◌<◌, length, IfOk};
ghost use Rattle.app_graph.specs.Validation.{KeepsRules};
ghost use Rattle.sched_model.specs.PlainMode.{plain_at};
ghost use Rattle.planner.specs.Plans.{IsPlanned};

use crate::laws::plans_are_best;
use crate::rounds::{Tried, try_rounds};
use app_graph::{ListOf, ModeSet};
use constraint_set::Problem;
use proof_tree::{ModePart, Tree};
use sched_model::laws::kept_modes_are_valid;
use sched_model::{Schedule, most_rounds};
use std::alloc::{AllocError, Global};

/// What is planned for a mode.
#[derive(Drop)]
pub enum Planned {
    /// Its trees for 1 round, for 2 rounds and so on, and its schedule of the next number of rounds, if it has one;
    /// and how many prefixes were visited in all.
    Made(ModePart, u64),
    /// The number of rounds at which more prefixes are visited in all than the budget.
    Spent { rounds: u64 },
}

/// The part of these trees and this schedule.
fn part(refuted: Vec<Tree>, schedule: Option<Schedule>) -> ModePart
    ensures trees { result.refuted ≡ refuted.items }
    ensures schedule { result.schedule ≡ schedule }
{
    ModePart {
        refuted: ListOf::from_vec(refuted),
        schedule,
    }
}

/// Plans the mode of this number: tries 1 round, 2 rounds and so on, each over what is left of the budget, to the first
/// that has a schedule. Its schedule has the fewest rounds, and it has none exactly where no number of rounds has one.
/// `Spent` comes exactly where the cost of the mode is above `budget`.
///
/// `docs/SEARCH.md` says what the search visits, `docs/PLAN_DOCUMENT.md` what a plan is.
pub fn plan_mode(
    alloc: Global,
    set: &ModeSet,
    mode: u32,
    budget: u64,
) -> Result<Planned, AllocError>
    requires rules { KeepsRules set.now }
    requires mode { mode < length set.now.modes }
    ensures { IfOk result (IsPlanned (plain_at set.now mode) budget) }
{
    kept_modes_are_valid();
    plans_are_best();
    let mut refuted = Vec::new(alloc);
    let mut left = budget;
    let most = most_rounds(set, mode);
    if most == 0 {
        return Ok(Planned::Made(part(refuted, None), 0));
    }
    let mut problem = Problem::make(alloc, set, mode, 1)?;
    for before in 0..most {
        problem.set_rounds(before + 1)?;
        match try_rounds(alloc, &problem, left)? {
            Tried::Made { schedule, visited } => {
                let cost = budget - left + visited;
                return Ok(Planned::Made(part(refuted, Some(schedule)), cost));
            }
            Tried::Refuted { tree, visited } => {
                refuted.push(tree)?;
                left -= visited;
            }
            Tried::Spent => return Ok(Planned::Spent { rounds: before + 1 }),
        }
    }
    Ok(Planned::Made(part(refuted, None), budget - left))
}

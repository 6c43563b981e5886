//! Laws of plans.

ghost use Rattle.planner.specs.Laws.{PlansAreBest};

use sched_model::laws::{own_trees_are_valid, printed_is_right, trees_show_fewest};

/// The schedule of a valid mode's own part is right and has the fewest rounds, and a part without one shows that there is none.
pub fn plans_are_best()
    ensures { PlansAreBest }
{
    own_trees_are_valid();
    printed_is_right();
    trees_show_fewest();
}

//! The chain of causes below the newest constraint, and the cycle that a constraint closes with it.

ghost use Rattle.std.specs.Prelude.{◌≡◌, ℕ, ◌-◌, ◌<◌, length, drop, true};
ghost use Rattle.tick_num.specs.Differences.{InRange, NegativeCycle, listed};
ghost use Rattle.diff_store.specs.Causes.{beside, marked, Chain, HeldByFirst, LeadsHome};

use crate::turn_marks::Marks;
use tick_num::{Diff, Time};

/// Marks the variables of the chain of causes from `x` down.
pub(crate) fn mark_chain(list: &[Diff], values: &[Time], causes: &[u32], x: u32, chain: &mut Marks)
    requires range { InRange (length values.now) list.now }
    requires x { x < length values.now }
    requires causes { length causes.now ≡ length values.now }
    requires held { HeldByFirst (length list.now - 1) list.now
        (listed values.now) (beside causes.now) }
    requires size { length chain.old ≡ length values.now }
    ensures own { marked chain.new x ≡ true }
    ensures size { length chain.new ≡ length chain.old }
    ensures chain { Chain list.now (listed values.now) (beside causes.now) chain.new x }
{
    chain.clear();
    chain.mark(x);
    let mut variable = x;
    for _step in 0..values.len() {
        if values[variable as usize] <= 0 {
            return;
        }
        variable = list[causes[variable as usize] as usize].x;
        chain.mark(variable);
    }
}

/// Writes the causes that lead from the `y` of a constraint back to it into the end of `cycle`, that
/// constraint at the end, and answers where they start.
pub(crate) fn close(list: &[Diff], causes: &[u32], last: u32, cycle: &mut [u32]) -> usize
    requires range { InRange (length causes.now) list.now }
    requires size { length cycle.old ≡ length causes.now }
    requires home { LeadsHome list.now causes.now last }
    ensures start { result < length cycle.new }
    ensures cycle { NegativeCycle list.now (drop result cycle.new) }
{
    let top = list[last as usize].y;
    let mut variable = list[last as usize].x;
    let mut start = cycle.len() - 1;
    cycle[start] = last;
    while variable != top {
        let position = causes[variable as usize];
        start -= 1;
        cycle[start] = position;
        variable = list[position as usize].x;
    }
    start
}

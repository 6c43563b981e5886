//! The answer to a list with its newest constraint.

ghost use Rattle.std.specs.Prelude.{◌≡◌, ℕ, ◌+◌, ◌-◌, ◌<◌, ◌≤◌, ◌^◌, length, All, IfSome, IfNone};
ghost use Rattle.tick_num.specs.Differences.{InRange, listed};
ghost use Rattle.diff_store.specs.Bounds.{Small};
ghost use Rattle.diff_store.specs.Leasts.{LeastOfFirst};
ghost use Rattle.diff_store.specs.Chains.{Chained};
ghost use Rattle.diff_store.specs.Causes.{beside, HeldByFirst, LeadsHome};
ghost use Rattle.diff_store.specs.Raising.{NoneWaits};
ghost use Rattle.diff_store.specs.Trails.{SamePast};

use crate::chains::Links;
use crate::cycles::mark_chain;
use crate::raising::{answer_newest, is_met};
use crate::trail::Trail;
use crate::turn_marks::Marks;
use crate::worklist::Worklist;
use tick_num::{Diff, Time};

/// Answers the list with its newest constraint: the least values, where it has a solution. Else the
/// position of a constraint from which the causes lead back to itself. What is replaced comes on the
/// trail.
pub(crate) fn answer(
    list: &[Diff],
    links: &Links,
    chain: &mut Marks,
    values: &mut [Time],
    causes: &mut [u32],
    trail: &mut Trail,
    worklist: &mut Worklist,
) -> Option<u32>
    requires some { 0 < length list.now }
    requires few { length values.old ≤ 400_000 }
    requires long { length list.now < 2 ^ 32 }
    requires range { InRange (length values.old) list.now }
    requires small { All Small list.now }
    requires chained { Chained (length values.old) list.now links.now }
    requires least { LeastOfFirst (length list.now - 1) list.now (listed values.old) }
    requires held { HeldByFirst (length list.now - 1) list.now
        (listed values.old) (beside causes.old) }
    requires causes { length causes.old ≡ length values.old }
    requires chain { length chain.old ≡ length values.old }
    requires starts { length trail.old.starts + 1 ≡ length list.now }
    requires room { length trail.old.starts < trail.old.pushes }
    requires size { length trail.old.kept ≡ length values.old }
    requires waits { length worklist.old ≡ length values.old }
    requires none { NoneWaits worklist.old }

    ensures least { IfNone result (LeastOfFirst (length list.now) list.now (listed values.new)) }
    ensures held { IfNone result (HeldByFirst (length list.now) list.now
        (listed values.new) (beside causes.new)) }
    ensures none { IfNone result (NoneWaits worklist.new) }
    ensures home { IfSome result (λ position. LeadsHome list.now causes.new position) }

    ensures past { SamePast (length trail.old.starts) trail.old trail.new
        (listed values.old) (listed values.new) (beside causes.old) (beside causes.new) }
    ensures starts { length trail.new.starts ≡ length list.now }
    ensures pushes { trail.new.pushes ≡ trail.old.pushes }
    ensures size { length trail.new.kept ≡ length trail.old.kept }
    ensures chain { length chain.new ≡ length chain.old }
    ensures waits { length worklist.new ≡ length worklist.old }
{
    trail.open();
    let newest = list[list.len() - 1];
    if is_met(values, newest) {
        return None;
    }
    trail.ready();
    mark_chain(list, values, causes, newest.x, chain);
    answer_newest(list, links, chain, values, causes, trail, worklist)
}

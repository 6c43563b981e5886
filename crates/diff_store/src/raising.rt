//! Raising values until the constraints are met again.

ghost use Rattle.std.specs.Prelude.{◌≡◌, ℕ, ◌+◌, ◌-◌, ◌<◌, ◌≤◌, ◌↔◌, ◌^◌, length, All, IsTrue, IfSome, IfNone, true, pos, ◌≤ℤ◌};
ghost use Rattle.std.specs.Bool.{OnTrue, OnFalse};
ghost use Rattle.tick_num.specs.Differences.{InRange, Meets, listed};
ghost use Rattle.diff_store.specs.Bounds.{Small};
ghost use Rattle.diff_store.specs.Leasts.{at, FromZero, LeastOfFirst, Low};
ghost use Rattle.diff_store.specs.Chains.{Chained};
ghost use Rattle.diff_store.specs.Causes.{beside, marked, newest, Chain, HeldByFirst, LeadsHome};
ghost use Rattle.diff_store.specs.Raising.{Raising, NoneWaits, left_to_do};
ghost use Rattle.diff_store.specs.Trails.{Kept, KeepsPast};

use crate::chains::Links;
use crate::trail::Trail;
use crate::turn_marks::Marks;
use crate::worklist::Worklist;
use tick_num::{Diff, Time};

/// Whether the values meet the constraint.
pub(crate) fn is_met(values: &[Time], d: Diff) -> bool
    requires x { d.x < length values.now }
    requires y { d.y < length values.now }
    requires small { Small d }
    requires from_zero { FromZero (listed values.now) }
    requires low { Low (listed values.now) }
    ensures { IsTrue result ↔ Meets (listed values.now) d }
{
    values[d.x as usize] - d.c <= values[d.y as usize]
}

/// Raises the value of `y` to what the constraint at a position forces, where it is lower. False
/// where that is a variable of the chain, which must keep its value.
fn raise(
    list: &[Diff],
    position: u32,
    chain: &Marks,
    values: &mut [Time],
    causes: &mut [u32],
    trail: &mut Trail,
    worklist: &mut Worklist,
) -> bool
    requires range { InRange (length values.old) list.now }
    requires small { All Small list.now }
    requires within { position < length list.now }
    requires chain { length chain.now ≡ length values.old }
    requires size { length trail.old.kept ≡ length values.old }
    requires kept { Kept trail.old }
    requires state { Raising list.now values.old causes.old chain.now worklist.old
        (at list.now position).x position }

    ensures state { OnTrue result (Raising list.now values.new causes.new chain.now worklist.new
        (at list.now position).x (position + 1)) }
    ensures falls { OnTrue result
        (left_to_do values.new worklist.new ≤ left_to_do values.old worklist.old) }
    ensures home { OnFalse result (LeadsHome list.now causes.new position) }

    ensures past { KeepsPast trail.old trail.new (listed values.old) (listed values.new)
        (beside causes.old) (beside causes.new) }
    ensures waits { length worklist.new ≡ length worklist.old }
{
    let d = list[position as usize];
    let forced = values[d.x as usize] - d.c;
    let value = values[d.y as usize];
    if forced <= value {
        return true;
    }
    if chain.has(d.y) {
        return false;
    }
    trail.keep(d.y, value, causes[d.y as usize]);
    values[d.y as usize] = forced;
    causes[d.y as usize] = position;
    worklist.add(d.y);
    true
}

/// Raises what the constraints from a variable force, up to one that would raise a variable of the
/// chain.
fn raise_from(
    list: &[Diff],
    links: &Links,
    variable: u32,
    chain: &Marks,
    values: &mut [Time],
    causes: &mut [u32],
    trail: &mut Trail,
    worklist: &mut Worklist,
) -> Option<u32>
    requires range { InRange (length values.old) list.now }
    requires small { All Small list.now }
    requires chained { Chained (length values.old) list.now links.now }
    requires variable { variable < length values.old }
    requires chain { length chain.now ≡ length values.old }
    requires size { length trail.old.kept ≡ length values.old }
    requires kept { Kept trail.old }
    requires state { Raising list.now values.old causes.old chain.now worklist.old
        variable 0 }

    ensures state { IfNone result (Raising list.now values.new causes.new chain.now worklist.new
        variable (length list.now)) }
    ensures falls { IfNone result
        (left_to_do values.new worklist.new ≤ left_to_do values.old worklist.old) }
    ensures home { IfSome result (λ position. LeadsHome list.now causes.new position) }

    ensures past { KeepsPast trail.old trail.new (listed values.old) (listed values.new)
        (beside causes.old) (beside causes.new) }
    ensures waits { length worklist.new ≡ length worklist.old }
{
    let mut link = links.first(variable);
    while let Some(position) = link {
        if !raise(list, position, chain, values, causes, trail, worklist) {
            return Some(position);
        }
        link = links.next(position);
    }
    None
}

/// Raises what the constraints from the waiting variables force, until none waits or a variable of
/// the chain would rise.
fn settle(
    list: &[Diff],
    links: &Links,
    chain: &Marks,
    values: &mut [Time],
    causes: &mut [u32],
    trail: &mut Trail,
    worklist: &mut Worklist,
) -> Option<u32>
    requires range { InRange (length values.old) list.now }
    requires small { All Small list.now }
    requires chained { Chained (length values.old) list.now links.now }
    requires chain { length chain.now ≡ length values.old }
    requires size { length trail.old.kept ≡ length values.old }
    requires kept { Kept trail.old }
    requires state { Raising list.now values.old causes.old chain.now worklist.old
        0 (length list.now) }

    ensures least { IfNone result (LeastOfFirst (length list.now) list.now (listed values.new)) }
    ensures held { IfNone result (HeldByFirst (length list.now) list.now
        (listed values.new) (beside causes.new)) }
    ensures none { IfNone result (NoneWaits worklist.new) }
    ensures home { IfSome result (λ position. LeadsHome list.now causes.new position) }

    ensures past { KeepsPast trail.old trail.new (listed values.old) (listed values.new)
        (beside causes.old) (beside causes.new) }
    ensures waits { length worklist.new ≡ length worklist.old }
{
    while let Some(variable) = worklist.take() {
        if let Some(position) = raise_from(
            list, links, variable, chain, values, causes, trail, worklist,
        ) {
            return Some(position);
        }
    }
    None
}

/// Raises the least values of the older constraints to those of the whole list. Else it answers the
/// position of a constraint from which the causes lead back to itself.
pub(crate) fn answer_newest(
    list: &[Diff],
    links: &Links,
    chain: &Marks,
    values: &mut [Time],
    causes: &mut [u32],
    trail: &mut Trail,
    worklist: &mut Worklist,
) -> Option<u32>
    requires some { 0 < length list.now }
    requires long { length list.now < 2 ^ 32 }
    requires range { InRange (length values.old) list.now }
    requires small { All Small list.now }
    requires chained { Chained (length values.old) list.now links.now }
    requires least { LeastOfFirst (length list.now - 1) list.now (listed values.old) }
    requires low { Low (listed values.old) }
    requires held { HeldByFirst (length list.now - 1) list.now
        (listed values.old) (beside causes.old) }
    requires causes { length causes.old ≡ length values.old }
    requires waits { length worklist.old ≡ length values.old }
    requires none { NoneWaits worklist.old }
    requires chain { length chain.now ≡ length values.old }
    requires own { marked chain.now (newest list.now).x ≡ true }
    requires descends { Chain list.now (listed values.old) (beside causes.old) chain.now
        (newest list.now).x }
    requires size { length trail.old.kept ≡ length values.old }
    requires kept { Kept trail.old }

    ensures least { IfNone result (LeastOfFirst (length list.now) list.now (listed values.new)) }
    ensures held { IfNone result (HeldByFirst (length list.now) list.now
        (listed values.new) (beside causes.new)) }
    ensures none { IfNone result (NoneWaits worklist.new) }
    ensures home { IfSome result (λ position. LeadsHome list.now causes.new position) }

    ensures past { KeepsPast trail.old trail.new (listed values.old) (listed values.new)
        (beside causes.old) (beside causes.new) }
    ensures waits { length worklist.new ≡ length worklist.old }
{
    let position = (list.len() - 1) as u32;
    if !raise(list, position, chain, values, causes, trail, worklist) {
        return Some(position);
    }
    settle(list, links, chain, values, causes, trail, worklist)
}

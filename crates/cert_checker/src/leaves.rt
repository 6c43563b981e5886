//! What the leaves of a tree say of the constraints in force.

ghost use Rattle.std.specs.Prelude.{◌≡◌, ◌<◌, ◌≤◌, ◌^◌, IfNone, IfSome, length, map, nat_eq, pos, neg_ℤ, ◌+ℤ◌, ◌≤ℤ◌};
ghost use Rattle.proof_tree.specs.Grammar.{value};
ghost use Rattle.proof_tree.specs.TreeLines.{is_negative};
ghost use Rattle.cert_checker.specs.Following.{constraint_at, goes_round};

use proof_tree::value;
use tick_num::Diff;
use ttw_text::Parts;

/// The constraint of this number, where there is one.
fn constraint_at(list: &[Diff], number: u64) -> Option<Diff>
    ensures none { IfNone result (length list.now ≤ number) }
    ensures some { IfSome result (λ d. (number < length list.now) × (d ≡ constraint_at list.now number)) }
{
    if number >= list.len() as u64 {
        return None;
    }
    Some(list[number as usize])
}

/// The sum of bounds, with one bound more.
fn sum_with(sum: i128, c: i64) -> i128
    requires least { neg_ℤ (pos (2 ^ 100)) ≤ℤ sum }
    requires most { sum ≤ℤ pos (2 ^ 100) }
    ensures { result ≡ sum +ℤ c }
{
    sum + c as i128
}

/// Whether the constraint begins at the variable.
fn begins_at(next: Diff, at: u32) -> bool
    ensures { result ≡ nat_eq at next.x }
{
    next.x == at
}

/// Whether the numbers lead on from the first constraint and back to it, and their bounds sum below 0.
fn leads_back(list: &[Diff], first: Diff, refs: &Parts<'_>) -> bool
    requires { length refs.now ≤ 4096 }
    ensures { result ≡ goes_round list.now first.x first.y first.c (map value refs.now) }
{
    let mut left = refs.again();
    let mut at = first.y;
    let mut sum = first.c as i128;
    while let Some(word) = left.next() {
        let next = match constraint_at(list, value(word)) {
            None => return false,
            Some(next) => next,
        };
        if !begins_at(next, at) {
            return false;
        }
        at = next.y;
        sum = sum_with(sum, next.c);
    }
    if at != first.x {
        return false;
    }
    sum < 0
}

/// Whether the constraints of these numbers go round in a cycle whose bounds sum below 0.
pub(crate) fn is_negative(list: &[Diff], refs: &Parts<'_>) -> bool
    requires { length refs.now ≤ 4096 }
    ensures { result ≡ is_negative list.now (map value refs.now) }
{
    let mut left = refs.again();
    let word = match left.next() {
        None => return false,
        Some(word) => word,
    };
    match constraint_at(list, value(word)) {
        None => false,
        Some(first) => leads_back(list, first, &left),
    }
}

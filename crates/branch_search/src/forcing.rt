//! The constraints in force: pushed on the way down, popped on the way back.

ghost use Rattle.std.specs.Prelude.{◌≡◌, ◌+◌, ◌*◌, ◌≤◌, length, take, All};
ghost use Rattle.sched_model.specs.ConstraintProblem.{vars, base, decisions};
ghost use Rattle.sched_model.specs.OpenPrefix.{Chosen};
ghost use Rattle.branch_search.specs.Forcing.{HasSolution, before_last, with_last, Fronts, Pushes};
ghost use Rattle.branch_search.specs.Walking.{Fits};

use crate::posed::Posed;
use diff_store::{Pushed, Store};
use tick_num::Diff;

/// How many constraints are in force before the last choice; none are before the empty prefix.
fn count_before_last<P: Posed>(problem: &P, prefix: &[i64]) -> usize
    requires { length prefix.now ≤ length (decisions (P.mode problem.now)) }
    ensures { result ≡ length (before_last (P.mode problem.now) (P.rounds problem.now) prefix.now) }
{
    if prefix.len() == 0 {
        return 0;
    }
    problem.base().len() + 2 * (prefix.len() - 1)
}

/// Pops the newest constraints until so many are left.
fn pop_to(store: &mut Store, len: usize)
    requires { len ≤ length store.old.list }
    ensures list { store.new.list ≡ take len store.old.list }
    ensures variables { store.new.variables ≡ store.old.variables }
    ensures constraints { store.new.constraints ≡ store.old.constraints }
{
    while store.len() > len {
        store.pop();
    }
}

/// Pushes constraints one after the other, to the first with which there is no solution.
fn push_each(store: &mut Store, added: &[Diff]) -> Pushed
    requires room { length store.old.list + length added.now ≤ store.old.constraints }
    requires fits { All (Fits store.old.variables) added.now }
    requires solvable { HasSolution store.old.list }
    ensures pushes { Pushes store.old.list added.now store.new.list result }
    ensures variables { store.new.variables ≡ store.old.variables }
    ensures constraints { store.new.constraints ≡ store.old.constraints }
{
    for d in added {
        if let Pushed::Closed = store.push(*d) {
            return Pushed::Closed;
        }
    }
    Pushed::Solvable
}

/// Pops what was pushed since the choices before the last one were made.
pub(crate) fn come_back<P: Posed>(problem: &P, prefix: &[i64], store: &mut Store)
    requires few { length prefix.now ≤ length (decisions (P.mode problem.now)) }
    requires fronts { Fronts (P.mode problem.now) (P.rounds problem.now) prefix.now store.old.list }

    ensures list { store.new.list ≡ before_last (P.mode problem.now) (P.rounds problem.now) prefix.now }

    ensures variables { store.new.variables ≡ store.old.variables }
    ensures constraints { store.new.constraints ≡ store.old.constraints }
{
    let len = count_before_last(problem, prefix);
    pop_to(store, len);
}

/// Pushes the constraints of the last choice, or those that always hold before any choice.
pub(crate) fn go_down<P: Posed>(problem: &P, prefix: &[i64], store: &mut Store) -> Pushed
    requires few { length prefix.now ≤ length (decisions (P.mode problem.now)) }
    requires chosen { Chosen (P.mode problem.now) (P.rounds problem.now) prefix.now }
    requires list { store.old.list ≡ before_last (P.mode problem.now) (P.rounds problem.now) prefix.now }
    requires solvable { HasSolution store.old.list }
    requires variables { store.old.variables ≡ vars (P.mode problem.now) (P.rounds problem.now) }
    requires room { store.old.constraints
        ≡ length (base (P.mode problem.now) (P.rounds problem.now))
        + 2 * length (decisions (P.mode problem.now)) }

    ensures pushes { Pushes (before_last (P.mode problem.now) (P.rounds problem.now) prefix.now)
        (with_last (P.mode problem.now) (P.rounds problem.now) prefix.now)
        store.new.list result }

    ensures variables { store.new.variables ≡ store.old.variables }
    ensures constraints { store.new.constraints ≡ store.old.constraints }
{
    if prefix.len() == 0 {
        return push_each(store, problem.base());
    }
    push_each(store, &problem.diffs_of_last(prefix))
}

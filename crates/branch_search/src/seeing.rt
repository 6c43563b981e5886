//! What a visited prefix shows: that it is open, or a leaf of the tree.

ghost use Rattle.std.specs.Prelude.{◌≡◌, ◌+◌, ◌-◌, ◌*◌, ◌<◌, ◌≤◌, length, take, IfOk, MatchOption};
ghost use Rattle.sched_model.specs.ConstraintProblem.{vars, base, decisions, load};
ghost use Rattle.sched_model.specs.OpenPrefix.{Chosen};
ghost use Rattle.sched_model.specs.PlainMode.{instances};
ghost use Rattle.sched_model.specs.RefutationTree.{Roomy};
ghost use Rattle.constraint_set.specs.Loads.{tally_of};
ghost use Rattle.branch_search.specs.Forcing.{HasSolution, before_last, Fronts};
ghost use Rattle.branch_search.specs.Walking.{FrontTally, Sees};

use crate::forcing::{come_back, go_down};
use crate::posed::Posed;
use constraint_set::Loads;
use diff_store::{Pushed, Store};
use proof_tree::TreeNode;
use std::alloc::AllocError;

/// The constraints in force, and how often each round is named.
#[derive(Drop)]
pub(crate) struct Bench {
    pub(crate) store: Store,
    pub(crate) loads: Loads,
}

/// Counts the round that the last choice names with those of the choices before it.
fn put_in_loads<P: Posed>(problem: &P, prefix: &[i64], loads: &mut Loads)
    requires few { length prefix.now ≤ length (decisions (P.mode problem.now)) }
    requires tally { FrontTally (P.mode problem.now) (P.rounds problem.now) prefix.now loads.old }
    ensures { loads.new ≡ tally_of (P.mode problem.now) (P.rounds problem.now) prefix.now }
{
    if prefix.len() == 0 {
        loads.keep_first(0);
        return;
    }
    let last = prefix.len() - 1;
    loads.keep_first(last);
    loads.count(problem.round_of(last, prefix[last]));
}

/// The first round, from 1, that the choices name more often than it has slots. The choices before the last one leave
/// room in each round, so it can only be the one that the last one names.
fn overfull<P: Posed>(problem: &P, prefix: &[i64], loads: &Loads) -> Option<u64>
    requires few { length prefix.now ≤ length (decisions (P.mode problem.now)) }
    requires tally { loads.now ≡ tally_of (P.mode problem.now) (P.rounds problem.now) prefix.now }
    requires roomy { Roomy (P.mode problem.now) (P.rounds problem.now) (P.rounds problem.now) (take (length prefix.now - 1) prefix.now) }
    ensures { MatchOption result (Roomy (P.mode problem.now) (P.rounds problem.now) (P.rounds problem.now) prefix.now)
        (λ j. (1 ≤ j) × (j ≤ P.rounds problem.now) × Roomy (P.mode problem.now) (P.rounds problem.now) (j - 1) prefix.now × ((P.mode problem.now).slots < load (P.mode problem.now) (P.rounds problem.now) (j - 1) prefix.now)) }
{
    let Some(round) = loads.last() else {
        return None;
    };
    if loads.load(round) > problem.slots() as u64 {
        return Some(round);
    }
    None
}

/// Pushes what comes into force: none where there is a solution, else the leaf of a cycle, whose
/// numbers go to `refs`.
fn force<P: Posed>(
    problem: &P,
    prefix: &[i64],
    store: &mut Store,
    refs: &mut Vec<u32>,
) -> Result<Option<TreeNode>, AllocError>
    requires few { length prefix.now ≤ length (decisions (P.mode problem.now)) }
    requires chosen { Chosen (P.mode problem.now) (P.rounds problem.now) prefix.now }
    requires list { store.old.list ≡ before_last (P.mode problem.now) (P.rounds problem.now) prefix.now }
    requires solvable { HasSolution store.old.list }
    requires variables { store.old.variables ≡ vars (P.mode problem.now) (P.rounds problem.now) }
    requires room { store.old.constraints
        ≡ length (base (P.mode problem.now) (P.rounds problem.now))
        + 2 * length (decisions (P.mode problem.now)) }
    requires slots { instances (P.mode problem.now) ≤ P.rounds problem.now * (P.mode problem.now).slots }
    requires roomy { Roomy (P.mode problem.now) (P.rounds problem.now) (P.rounds problem.now) prefix.now }

    ensures seen { IfOk result (λ seen. Sees (P.mode problem.now) (P.rounds problem.now) prefix.now
        store.new.list refs.old.items refs.new.items seen) }

    ensures variables { store.new.variables ≡ store.old.variables }
    ensures constraints { store.new.constraints ≡ store.old.constraints }
{
    match go_down(problem, prefix, store) {
        Pushed::Solvable => Ok(None),
        Pushed::Closed => {
            let from = refs.len();
            let numbers = store.cycle();
            refs.extend_from_slice(numbers)?;
            Ok(Some(TreeNode::Cycle {
                from,
                len: numbers.len(),
            }))
        }
    }
}

/// Sees what the prefix shows: none where it is open, with all constraints in force in the store,
/// else a leaf. The first of these holds: the rounds have too few slots, a round is named too often,
/// or the constraints in force go round in a negative cycle.
pub(crate) fn look<P: Posed>(
    problem: &P,
    prefix: &[i64],
    bench: &mut Bench,
    refs: &mut Vec<u32>,
) -> Result<Option<TreeNode>, AllocError>
    requires few { length prefix.now ≤ length (decisions (P.mode problem.now)) }
    requires chosen { Chosen (P.mode problem.now) (P.rounds problem.now) prefix.now }
    requires fronts { Fronts (P.mode problem.now) (P.rounds problem.now) prefix.now bench.old.store.list }
    requires solvable { HasSolution (before_last (P.mode problem.now) (P.rounds problem.now) prefix.now) }
    requires tally { FrontTally (P.mode problem.now) (P.rounds problem.now) prefix.now bench.old.loads }
    requires roomy { Roomy (P.mode problem.now) (P.rounds problem.now) (P.rounds problem.now)
        (take (length prefix.now - 1) prefix.now) }
    requires variables { bench.old.store.variables ≡ vars (P.mode problem.now) (P.rounds problem.now) }
    requires room { bench.old.store.constraints
        ≡ length (base (P.mode problem.now) (P.rounds problem.now))
        + 2 * length (decisions (P.mode problem.now)) }

    ensures seen { IfOk result (λ seen. Sees (P.mode problem.now) (P.rounds problem.now) prefix.now
        bench.new.store.list refs.old.items refs.new.items seen) }
    ensures tally { IfOk result (λ _. bench.new.loads
        ≡ tally_of (P.mode problem.now) (P.rounds problem.now) prefix.now) }

    ensures variables { bench.new.store.variables ≡ bench.old.store.variables }
    ensures room { bench.new.store.constraints ≡ bench.old.store.constraints }
{
    come_back(problem, prefix, &mut bench.store);
    put_in_loads(problem, prefix, &mut bench.loads);
    if problem.short_of_slots() {
        return Ok(Some(TreeNode::Short));
    }
    if let Some(j) = overfull(problem, prefix, &bench.loads) {
        return Ok(Some(TreeNode::Full(j)));
    }
    force(problem, prefix, &mut bench.store, refs)
}

//! The check of a plan document.

ghost use Rattle.std.specs.Prelude.{IfErr, IfOk, IfSome};
ghost use Rattle.std.specs.List.{AllZip};
ghost use Rattle.app_graph.specs.Validation.{KeepsRules};
ghost use Rattle.proof_tree.specs.Accepting.{Accepts, doc_modes};
ghost use Rattle.proof_tree.specs.Fewest.{IsBest};
ghost use Rattle.proof_tree.specs.Refusing.{Refuses};
ghost use Rattle.cert_checker.specs.Refusals.{said};

use crate::checker::Checker;
use crate::refused::Refused;
use app_graph::{ListOf, ModeSet};
use proof_tree::laws::accepted_are_best;
use sched_model::Schedule;
use std::alloc::Global;
use ttw_text::cut;

/// What an accepted document says.
#[derive(Drop)]
pub struct Accepted {
    /// The schedule of each mode, in file order, or none where the document shows that the mode has none.
    pub modes: ListOf<Option<Schedule>>,
}

/// Reads a plan document line by line and tests it against the mode set. It is accepted exactly where it has the grammar, every schedule is right, and
/// valid trees show that no mode has a schedule of fewer rounds, or none where it says so. Otherwise the answer is the first refused line and why.
/// docs/PLAN_DOCUMENT.md states what is accepted. Memory is taken for the schedules and for one tree's choices, and not for each line.
pub fn check(alloc: Global, set: &ModeSet, text: &[u8]) -> Result<Accepted, Refused>
    requires { KeepsRules set.now }
    ensures accepted { IfOk result (λ a. Accepts set.now text.now a.modes) }
    ensures best { IfOk result (λ a. AllZip IsBest (doc_modes set.now) a.modes) }
    ensures refused { IfErr result (λ e. IfSome (said e) (λ f. Refuses set.now text.now f)) }
{
    let mut checker = Checker::begin(alloc);
    let mut from = 0;
    while let Some((bytes, next)) = cut(text, from) {
        checker.take(alloc, set, bytes)?;
        from = next;
    }
    accepted_are_best();
    checker.end()
}

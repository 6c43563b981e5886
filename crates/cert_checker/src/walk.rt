//! A tree, read node by node.

ghost use Rattle.std.specs.Prelude.{◌≡◌, ℕ, ◌+◌, ◌-◌, ◌<◌, ◌≤◌, [], ◌∷◌, ◌++◌, length, map, take, ℤ, ◌≤ℤ◌, IfOk, IfErr, OnOk};
ghost use Rattle.sched_model.specs.ConstraintProblem.{alternatives, decisions};
ghost use Rattle.sched_model.specs.Numbers.{span};
ghost use Rattle.proof_tree.specs.Reading.{Place};
ghost use Rattle.proof_tree.specs.TreeLines.{Items, leaf_holds};
ghost use Rattle.proof_tree.specs.Grammar.{value};
ghost use Rattle.proof_tree.specs.Items.{Short, Full, Cycle};
ghost use Rattle.proof_tree.specs.PlanLines.{meaning};
ghost use Rattle.cert_checker.specs.Refusals.{Fails, FitsLine};
ghost use Rattle.cert_checker.specs.TreeStack.{IsWalk, at_, behind_line, line_at, walk_beside, walk_branch, walk_children, walk_due, walk_goes, walk_leaf};

use crate::leaves::is_negative;
use crate::refused::Refused;
use constraint_set::{Loads, Problem};
use proof_tree::PlanLine;
use std::alloc::{AllocError, Global};
use tick_num::Diff;
use ttw_text::Parts;

/// The prefix whose node is due: its choices with the greatest alternative at each, the constraints in force, and the loads of the rounds.
#[derive(Drop)]
pub(crate) struct Walk {
    pub(crate) problem: Problem,
    pub(crate) prefix: Vec<i64>,
    pub(crate) highs: Vec<i64>,
    pub(crate) constraints: Vec<Diff>,
    pub(crate) loads: Loads,
}

impl Walk {
    /// The walk with no choice yet.
    pub(crate) fn begin(alloc: Global, problem: Problem) -> Result<Walk, AllocError>
        ensures kept { IfOk result (λ w. IsWalk w) }
        ensures problem { IfOk result (λ w. w.problem ≡ problem) }
        ensures empty { IfOk result (λ w. w.prefix.items ≡ []) }
    {
        let constraints = Vec::from_slice(alloc, problem.base())?;
        let loads = Loads::reserve(alloc, problem.rounds(), problem.decisions())?;
        Ok(Walk {
            problem,
            prefix: Vec::new(alloc),
            highs: Vec::new(alloc),
            constraints,
            loads,
        })
    }

    /// The number of rounds.
    pub(crate) fn rounds(&self) -> u64
        ensures count { result ≡ self.now.problem.rounds }
        ensures few { result ≤ 4294967295 }
    {
        self.problem.rounds() as u64
    }

    /// Puts a choice behind the others, which is among the alternatives, of which the greatest is `high`.
    fn put(&mut self, choice: i64, high: i64) -> Result<(), AllocError>
        requires kept { IsWalk self.old }
        requires more { length self.old.prefix.items < length (decisions self.old.problem.mode) }
        requires among { (low : ℤ) × (alternatives self.old.problem.mode self.old.problem.rounds self.old.prefix.items ≡ span low high) × (low ≤ℤ choice) × (choice ≤ℤ high) }
        ensures kept { OnOk result (IsWalk self.new) }
        ensures problem { OnOk result (self.new.problem ≡ self.old.problem) }
        ensures prefix { OnOk result (self.new.prefix.items ≡ self.old.prefix.items ++ choice ∷ []) }
        ensures highs { OnOk result (self.new.highs.items ≡ self.old.highs.items ++ high ∷ []) }
    {
        let at = self.prefix.len();
        self.prefix.push(choice)?;
        self.highs.push(high)?;
        let diffs = self.problem.diffs_of_last(self.prefix.as_slice());
        self.constraints.extend_from_slice(&diffs)?;
        let round = self.problem.round_of(at, choice);
        self.loads.count(round);
        Ok(())
    }

    /// Takes the last choice away, and answers it with the greatest alternative.
    fn pop(&mut self) -> (i64, i64)
        requires kept { IsWalk self.old }
        requires some { 0 < length self.old.prefix.items }
        ensures kept { IsWalk self.new }
        ensures problem { self.new.problem ≡ self.old.problem }
        ensures prefix { self.new.prefix.items ≡ take (length self.old.prefix.items - 1) self.old.prefix.items }
        ensures highs { self.new.highs.items ≡ take (length self.old.prefix.items - 1) self.old.highs.items }
        ensures last { result.0 ≡ at_ self.old.prefix.items (length self.old.prefix.items - 1) }
        ensures most { result.1 ≡ at_ self.old.highs.items (length self.old.prefix.items - 1) }
    {
        let top = self.prefix.len() - 1;
        let last = self.prefix[top];
        let most = self.highs[top];
        self.loads.take_back();
        self.prefix.truncate(top);
        self.highs.truncate(top);
        self.constraints.truncate(self.constraints.len() - 2);
        (last, most)
    }

    /// Goes to the next prefix once the tree of this one is read: whether there is one.
    fn advance(&mut self) -> Result<bool, AllocError>
        requires { IsWalk self.old }
        ensures kept { OnOk result (IsWalk self.new) }
        ensures problem { OnOk result (self.new.problem ≡ self.old.problem) }
        ensures goes { IfOk result (λ due. (o : ℕ) (at : Place) → walk_goes due o self.new at ≡ walk_beside o self.old at) }
    {
        while self.prefix.len() > 0 {
            let (last, most) = self.pop();
            if last < most {
                self.put(last + 1, most)?;
                return Ok(true);
            }
        }
        Ok(false)
    }

    /// Goes to the first of the prefixes with one choice more, or past them where there are none.
    fn open(&mut self) -> Result<bool, AllocError>
        requires kept { IsWalk self.old }
        requires more { length self.old.prefix.items < length (decisions self.old.problem.mode) }
        ensures kept { OnOk result (IsWalk self.new) }
        ensures problem { OnOk result (self.new.problem ≡ self.old.problem) }
        ensures goes { IfOk result (λ due. (o : ℕ) (at : Place) → walk_goes due o self.new at ≡ walk_children o self.old at) }
    {
        let (low, high) = self.problem.alternatives(self.prefix.as_slice());
        if low > high {
            return self.advance();
        }
        self.put(low, high)?;
        Ok(true)
    }

    /// Takes a leaf, where what it says is so.
    fn leaf(&mut self, holds: bool, line: u64) -> Result<bool, Refused>
        requires { IsWalk self.old }
        ensures kept { OnOk result (IsWalk self.new) }
        ensures problem { OnOk result (self.new.problem ≡ self.old.problem) }
        ensures goes { IfOk result (λ due. (o : ℕ) (at : Place) → walk_goes due o self.new at ≡ walk_leaf holds line o self.old at) }
        ensures err { IfErr result (λ e. (o : ℕ) (at : Place) → Fails e (walk_leaf holds line o self.old at)) }
    {
        if !holds {
            return Err(Refused::BadLeaf(line));
        }
        Ok(self.advance()?)
    }

    /// Takes a branch, where a decision is left.
    fn branch(&mut self, line: u64) -> Result<bool, Refused>
        requires { IsWalk self.old }
        ensures kept { OnOk result (IsWalk self.new) }
        ensures problem { OnOk result (self.new.problem ≡ self.old.problem) }
        ensures goes { IfOk result (λ due. (o : ℕ) (at : Place) → walk_goes due o self.new at ≡ walk_branch line o self.old at) }
        ensures err { IfErr result (λ e. (o : ℕ) (at : Place) → Fails e (walk_branch line o self.old at)) }
    {
        if self.prefix.len() >= self.problem.decisions() {
            return Err(Refused::BadLeaf(line));
        }
        Ok(self.open()?)
    }

    /// Whether the rounds have too few slots.
    fn is_short(&self) -> bool
        ensures { result ≡ leaf_holds self.now.problem.mode self.now.problem.rounds self.now.prefix.items Short }
    {
        self.problem.short_of_slots()
    }

    /// Whether the round, from 1, is chosen more often than it has slots.
    fn is_full(&self, round: u64) -> bool
        requires { IsWalk self.now }
        ensures { result ≡ leaf_holds self.now.problem.mode self.now.problem.rounds self.now.prefix.items (Full round) }
    {
        if round < 1 {
            return false;
        }
        if round > self.rounds() {
            return false;
        }
        self.loads.load(round) > self.problem.slots() as u64
    }

    /// Whether the constraints in force of these numbers go round in a cycle whose bounds sum below 0.
    fn is_cycle(&self, refs: &Parts<'_>) -> bool
        requires kept { IsWalk self.now }
        requires few { length refs.now ≤ 4096 }
        ensures { result ≡ leaf_holds self.now.problem.mode self.now.problem.rounds self.now.prefix.items (Cycle (map value refs.now)) }
    {
        is_negative(self.constraints.as_slice(), refs)
    }

    /// Takes the line of a node in the tree of a mode: whether the node of another prefix is due.
    pub(crate) fn take(
        &mut self,
        mode: u32,
        line: u64,
        item: &PlanLine<'_>,
    ) -> Result<bool, Refused>
        requires kept { IsWalk self.old }
        requires fits { FitsLine (meaning item.now) }
        ensures kept { OnOk result (IsWalk self.new) }
        ensures problem { OnOk result (self.new.problem ≡ self.old.problem) }
        ensures goes { IfOk result (λ due. (rest : Items) → walk_due mode self.old (line_at line (meaning item.now) rest) ≡ walk_goes due mode self.new (behind_line line rest)) }
        ensures err { IfErr result (λ e. (rest : Items) → Fails e (walk_due mode self.old (line_at line (meaning item.now) rest))) }
    {
        match item {
            PlanLine::Branch => self.branch(line),
            PlanLine::Short => {
                let holds = self.is_short();
                self.leaf(holds, line)
            }
            PlanLine::Full(round) => {
                let holds = self.is_full(*round);
                self.leaf(holds, line)
            }
            PlanLine::Cycle(refs) => {
                let holds = self.is_cycle(refs);
                self.leaf(holds, line)
            }
            PlanLine::Mode(_)
            | PlanLine::Refute(_)
            | PlanLine::Schedule(_)
            | PlanLine::Absent
            | PlanLine::End => Err(Refused::Unfinished(mode)),
            PlanLine::Head
            | PlanLine::Start(_)
            | PlanLine::Task(_, _)
            | PlanLine::Message(_, _, _)
            | PlanLine::Table(_, _) => Err(Refused::Grammar(line)),
        }
    }
}

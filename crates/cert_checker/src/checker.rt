//! The checker, which takes a document line by line and keeps none of it.

ghost use Rattle.std.specs.Prelude.{◌≡◌, ◌+◌, ◌<◌, ◌∷◌, [], ℕ, List, length, IfErr, IfOk, OnOk};
ghost use Rattle.app_graph.specs.Validation.{KeepsRules};
ghost use Rattle.app_graph.specs.declared.mode_set.ModeSet.{ModeSet as Set};
ghost use Rattle.ttw_text.specs.Lines.{lines};
ghost use Rattle.proof_tree.specs.Accepting.{Accepts, doc_modes, items_of};
ghost use Rattle.proof_tree.specs.Reading.{read_document};
ghost use Rattle.cert_checker.specs.DocumentStages.{Refutes};
ghost use Rattle.cert_checker.specs.Machine.{IsReady, leads};
ghost use Rattle.cert_checker.specs.declared.refused.Refused.TheVariants as refused;

use crate::checking::Accepted;
use crate::reader::read_line;
use crate::refused::Refused;
use crate::stages::Stage;
use app_graph::{ListOf, ModeSet};
use sched_model::Schedule;
use std::alloc::Global;

/// What was read of a document: the plans of the modes that are done, and what is due next.
#[derive(Drop)]
pub(crate) struct Checker<'a> {
    plans: Vec<Option<Schedule>>,
    stage: Stage<'a>,
    /// The number of the line that is due, from 1.
    line: u64,
    /// Where it begins.
    place: u64,
}

impl<'a> Checker<'a> {
    /// The checker before the first line.
    pub(crate) fn begin(alloc: Global) -> Checker<'a>
        ensures ready { (set : Set) → IsReady set result }
        ensures place { result.place ≡ 0 }
        ensures leads { (set : Set) (text : List ℕ) →
            read_document (doc_modes set) (items_of text) ≡ leads set result (lines text) }
    {
        Checker {
            plans: Vec::new(alloc),
            stage: Stage::Head,
            line: 1,
            place: 0,
        }
    }

    /// Takes the next line, with its line feed where it has one.
    pub(crate) fn take(
        &mut self,
        alloc: Global,
        set: &'a ModeSet,
        bytes: &[u8],
    ) -> Result<(), Refused>
        requires rules { KeepsRules set.now }
        requires ready { IsReady set.now self.old }
        requires some { 0 < length bytes.now }

        ensures ready { OnOk result (IsReady set.now self.new) }
        ensures place { OnOk result (self.new.place ≡ self.old.place + length bytes.now) }
        ensures leads { OnOk result ((rest : List (List ℕ)) →
            leads set.now self.old (bytes.now ∷ rest) ≡ leads set.now self.new rest) }
        ensures err { IfErr result (λ e. (rest : List (List ℕ)) →
            Refutes set.now e (leads set.now self.old (bytes.now ∷ rest))) }
    {
        let end = self.place + bytes.len() as u64;
        let item = read_line(bytes, end, self.line)?;
        self.stage
            .take(alloc, set, &mut self.plans, self.line, &item)?;
        self.line += 1;
        self.place = end;
        Ok(())
    }

    /// The refusal of the next line where it has none of the forms.
    pub(crate) fn no_form(&self) -> Refused
        ensures { result ≡ refused.Grammar self.now.line }
    {
        Refused::Grammar(self.line)
    }

    /// Takes the document's end.
    pub(crate) fn end(self) -> Result<Accepted, Refused>
        ensures accepted { IfOk result (λ a. (set : Set) (text : List ℕ) → IsReady set self.entry →
            read_document (doc_modes set) (items_of text) ≡ leads set self.entry [] →
            Accepts set text a.modes) }
        ensures err { IfErr result (λ e. (set : Set) → IsReady set self.entry →
            Refutes set e (leads set self.entry [])) }
    {
        if !self.stage.is_end() {
            return Err(Refused::Grammar(self.line));
        }
        Ok(Accepted {
            modes: ListOf::from_vec(self.plans),
        })
    }
}

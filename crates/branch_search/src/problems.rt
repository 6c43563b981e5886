//! The constraint problem in code, as the search takes it.

use crate::posed::Posed;
use constraint_set::Problem;
use tick_num::Diff;

impl Posed for Problem {
    ghost mode = { λ p. p.mode };

    ghost rounds = { λ p. p.rounds };

    fn rounds(&self) -> u32 {
        let _valid = self.vars();
        self.rounds()
    }

    fn vars(&self) -> u32 {
        self.vars()
    }

    fn base(&self) -> &[Diff] {
        let _fits = self.vars();
        self.base()
    }

    fn decisions(&self) -> usize {
        let _fits = self.vars();
        self.decisions()
    }

    fn alternatives(&self, prefix: &[i64]) -> (i64, i64) {
        self.alternatives(prefix)
    }

    fn diffs_of_last(&self, prefix: &[i64]) -> [Diff; 2] {
        let _fits = self.vars();
        self.diffs_of_last(prefix)
    }

    fn short_of_slots(&self) -> bool {
        self.short_of_slots()
    }

    fn slots(&self) -> u32 {
        self.slots()
    }

    fn round_of(&self, at: usize, value: i64) -> Option<u64> {
        self.round_of(at, value)
    }
}

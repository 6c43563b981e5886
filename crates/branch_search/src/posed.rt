//! What a search asks of a constraint problem.

ghost use Rattle.std.specs.Prelude.{◌≡◌, ℕ, ◌+◌, ◌-◌, ◌*◌, ◌<◌, ◌≤◌, ◌↔◌, List, [], ◌∷◌, length, slice_index_or, All, ℤ, pos, IsTrue};
ghost use Rattle.sched_model.specs.Numbers.{span};
ghost use Rattle.sched_model.specs.PlainMode.{PlainMode, instances};
ghost use Rattle.sched_model.specs.ConstraintProblem.{vars, base, alternatives, decisions, chosen, order};
ghost use Rattle.sched_model.specs.OpenPrefix.{Chosen};
ghost use Rattle.sched_model.specs.ValidMode.{IsValid};
ghost use Rattle.constraint_set.specs.Loads.{Within, round_of};
ghost use Rattle.branch_search.specs.Walking.{Fits};

use tick_num::Diff;

/// The constraint problem of a mode and a number of rounds. No call takes memory.
pub trait Posed {
    ghost mode: { Self → PlainMode };

    ghost rounds: { Self → ℕ };

    /// The number of rounds in a hyperperiod, at least 1, of a valid mode.
    fn rounds(&self) -> u32
        ensures count { result ≡ rounds self.now }
        ensures some { 1 ≤ result }
        ensures valid { IsValid (mode self.now) };

    /// How many variables there are.
    fn vars(&self) -> u32
        ensures count { result ≡ vars (mode self.now) (rounds self.now) }
        ensures few { result ≤ 512 };

    /// The constraints that always hold.
    fn base(&self) -> &[Diff]
        ensures list { result.now ≡ base (mode self.now) (rounds self.now) }
        ensures few { length result.now ≤ 65_536 }
        ensures fits { All (Fits (vars (mode self.now) (rounds self.now))) result.now };

    /// How many decisions there are.
    fn decisions(&self) -> usize
        ensures count { result ≡ length (decisions (mode self.now)) }
        ensures few { result ≤ 32_768 };

    /// The least and the greatest alternative of the decision after these choices; there is none where the least is above the greatest.
    fn alternatives(&self, prefix: &[i64]) -> (i64, i64)
        requires more { length prefix.now < length (decisions (mode self.now)) }
        requires chosen { Chosen (mode self.now) (rounds self.now) prefix.now }
        ensures { span result.0 result.1 ≡ alternatives (mode self.now) (rounds self.now) prefix.now };

    /// The two constraints that the last of these choices adds.
    fn diffs_of_last(&self, prefix: &[i64]) -> [Diff; 2]
        requires some { 0 < length prefix.now }
        requires few { length prefix.now ≤ length (decisions (mode self.now)) }
        requires chosen { Chosen (mode self.now) (rounds self.now) prefix.now }
        ensures list { result ≡ chosen (mode self.now) (rounds self.now) (slice_index_or (decisions (mode self.now)) (length prefix.now - 1) (order 0 0)) (slice_index_or prefix.now (length prefix.now - 1) (pos 0)) }
        ensures fits { All (Fits (vars (mode self.now) (rounds self.now))) result };

    /// Whether the rounds have too few slots for the instances of all messages.
    fn short_of_slots(&self) -> bool
        ensures { IsTrue result ↔ (rounds self.now * (mode self.now).slots < instances (mode self.now)) };

    /// The number of slots in a round.
    fn slots(&self) -> u32
        ensures { result ≡ (mode self.now).slots };

    /// The round, from 1, that this choice for the decision at the place `at` names; none for a pair of tasks.
    fn round_of(&self, at: usize, value: i64) -> Option<u64>
        requires { at < length (decisions (mode self.now)) }
        ensures round { result ≡ round_of (rounds self.now) (slice_index_or (decisions (mode self.now)) at (order 0 0)) value }
        ensures within { Within (rounds self.now) result };
}

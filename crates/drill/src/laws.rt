//! Laws of the generated mode set.

ghost use Rattle.std.specs.Prelude.{◌≡◌, ℕ, None, Result};
ghost use Rattle.app_graph.specs.Numbering.{set_of};
ghost use Rattle.app_graph.specs.ValueRules.{value_rules};
ghost use Rattle.app_graph.specs.Validation.{KeepsRules, Validates};
ghost use Rattle.app_graph.specs.declared.faults.GraphFault.{GraphFault};
ghost use Rattle.app_graph.specs.declared.mode_set.ModeSet.{ModeSet};
ghost use Rattle.drill.specs.Generated.{drill_raw, drill_set};
ghost use Rattle.drill.specs.Validated.{Validated};

/// The generated file breaks no rule, whatever the seed, and says the generated mode set. Its
/// validation answers this set unless memory runs out.
pub fn drill_law()
    ensures kept { (seed : ℕ) → value_rules (drill_raw seed) ≡ None }

    ensures set { (seed : ℕ) → set_of (drill_raw seed) ≡ drill_set seed }

    ensures validated { (seed : ℕ) (answer : Result ModeSet GraphFault)
        → Validates (drill_raw seed) answer → Validated seed answer }

    ensures keeps { (seed : ℕ) → KeepsRules (drill_set seed) }
{}

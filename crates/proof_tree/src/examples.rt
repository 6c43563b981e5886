//! What the definitions say of small documents.

ghost use Rattle.proof_tree.specs.Examples.{LineRows, LoopRows, PlaceRows};
ghost use Rattle.sched_model.specs.PlainMode.{PlainMode};

/// The lines of a plan, and lines that have no form.
pub fn line_rows()
    ensures { LineRows }
{}

/// Documents that end well, and where others are refused.
pub fn place_rows()
    ensures { (m : PlainMode) → PlaceRows m }
{}

/// The document of a control loop, which needs two rounds, and what reading it gives.
pub fn loop_rows()
    ensures { LoopRows }
{}

//! What the definitions say of small scripts.

ghost use Rattle.replay_script.specs.Examples.{ScriptRows};

/// A script with a line of each form, and scripts with a first faulty line of each kind.
pub fn script_rows()
    ensures { ScriptRows }
{}

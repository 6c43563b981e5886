//! Laws of scripts.

ghost use Rattle.replay_script.specs.Script.{CutLaw};

/// A script that is read up to one byte past its limit, or further, has the fault of the whole script.
pub fn cut_law()
    ensures { CutLaw }
{}

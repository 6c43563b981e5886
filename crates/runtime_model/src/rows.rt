//! Worked rows: what scripts do in small systems, computed from the definitions alone.

ghost use Rattle.runtime_model.specs.Rows.{CopiesInPart, CopyLost, CopyPassedOver, LatestRequest, LatestRequestExchanged, LostBeacon, MissedWarning, ModeChange, ModeChangeHost, NodePart, PairIsRight, RestartAfterBeacon, RestartBeforeBeacon};

/// A node that misses a round's beacon does not send in it.
pub fn lost_beacon()
    ensures { LostBeacon }
{}

/// A change of mode warns, drains and opens, also where a node misses its beacons.
pub fn mode_change()
    ensures lines { ModeChange }
    ensures host { ModeChangeHost }
{}

/// A node that misses the warning runs the old mode on, and stops where it hears the draining.
pub fn missed_warning_runs_old_mode()
    ensures { MissedWarning }
{}

/// A restart empties the registers, before a beacon and after it.
pub fn restart_empties_registers()
    ensures before { RestartBeforeBeacon }
    ensures after { RestartAfterBeacon }
{}

/// Of several requests the latest counts.
pub fn latest_request_counts()
    ensures last { LatestRequest }
    ensures exchanged { LatestRequestExchanged }
{}

/// What a node keeps of the plans.
pub fn node_part()
    ensures { NodePart }
{}

/// A node takes the second copy where it lost the first.
pub fn copy_lost()
    ensures { CopyLost }
{}

/// A node that took the first copy passes over the second.
pub fn copy_passed_over()
    ensures { CopyPassedOver }
{}

/// What a node keeps of a plan with two copies of a message.
pub fn copies_in_part()
    ensures { CopiesInPart }
{}

/// Two modes of one task each have right plans, so the laws speak of some system.
pub fn pair_is_right()
    ensures { PairIsRight }
{}

//! Laws of scripts. Each holds for every list of lines.

ghost use Rattle.replayer.specs.Scripts.{BeaconsComeSoon, ScriptsAreShort, ScriptsSpellOnce};

/// With right plans, a script whose requests name modes spells exactly one list of events.
pub fn scripts_spell_once()
    ensures { ScriptsSpellOnce }
{}

/// A wait for a beacon ends soon: after few events, and not much later.
pub fn beacons_come_soon()
    ensures { BeaconsComeSoon }
{}

/// A script that fits its set spells neither too many events nor too late ones to be counted.
pub fn scripts_are_short()
    ensures { ScriptsAreShort }
{}

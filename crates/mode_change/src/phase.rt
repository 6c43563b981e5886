//! The phases of a hyperperiod.

ghost use Rattle.std.specs.Prelude.{◌≡◌};
ghost use Rattle.runtime_model.specs.HostCalls.{phase_taken};
ghost use Rattle.runtime_model.specs.Timeline.{drains, named};
ghost use Rattle.mode_change.specs.Phases.{plain_phase};

/// What a hyperperiod's beacons announce.
#[derive(Clone, Copy, Debug, PartialEq, Eq, Drop)]
pub enum Phase {
    /// The mode runs on.
    Steady,
    /// The mode will change to this one, after the next hyperperiod.
    Warn(u32),
    /// The mode changes to this one with the next hyperperiod. No instance is released in this one.
    Drain(u32),
}

/// Whether no instance is released in the hyperperiod.
pub(crate) fn is_draining(phase: Phase) -> bool
    ensures { result ≡ drains (plain_phase phase) }
{
    match phase {
        Phase::Drain(_) => true,
        Phase::Steady | Phase::Warn(_) => false,
    }
}

/// The mode that the beacons of a hyperperiod of `mode` name.
pub(crate) fn named_mode(mode: u32, phase: Phase) -> u32
    ensures { result ≡ named mode (plain_phase phase) }
{
    match phase {
        Phase::Steady => mode,
        Phase::Warn(next) | Phase::Drain(next) => next,
    }
}

/// The phase from the first beacon of a hyperperiod of `mode` on, where this request waits.
pub(crate) fn decided(mode: u32, phase: Phase, waiting: Option<u32>) -> Phase
    ensures { plain_phase result ≡ phase_taken mode (plain_phase phase) waiting }
{
    match (phase, waiting) {
        (Phase::Drain(next), _) => Phase::Drain(next),
        (_, Some(next)) if next != mode => Phase::Warn(next),
        _ => Phase::Steady,
    }
}

//! The words of a mode file.

ghost use Rattle.std.specs.Prelude.{◌≡◌};
ghost use Rattle.app_graph.specs.Words.{word};

/// A key of a mode file, or what there may be too many of.
#[derive(Clone, Copy, Debug, PartialEq, Eq)]
pub enum Key {
    KSlots,
    KRound,
    KGap,
    KHost,
    KNodes,
    KMode,
    KName,
    KApp,
    KPeriod,
    KDeadline,
    KTask,
    KMessage,
    KNode,
    KWcet,
    KBody,
    KFrom,
    KTo,
    KCopies,
    KInputs,
    KHyperperiod,
    KRounds,
    KRuns,
    KInstances,
    KDecisions,
}

impl Key {
    /// The word as it is spelled in files and fault lines.
    pub fn text(self) -> &'static str
        ensures { result.now ≡ word self }
    {
        match self {
            Key::KSlots => "slots",
            Key::KRound => "round",
            Key::KGap => "gap",
            Key::KHost => "host",
            Key::KNodes => "nodes",
            Key::KMode => "mode",
            Key::KName => "name",
            Key::KApp => "app",
            Key::KPeriod => "period",
            Key::KDeadline => "deadline",
            Key::KTask => "task",
            Key::KMessage => "message",
            Key::KNode => "node",
            Key::KWcet => "wcet",
            Key::KBody => "body",
            Key::KFrom => "from",
            Key::KTo => "to",
            Key::KCopies => "copies",
            Key::KInputs => "inputs",
            Key::KHyperperiod => "hyperperiod",
            Key::KRounds => "rounds",
            Key::KRuns => "runs",
            Key::KInstances => "instances",
            Key::KDecisions => "decisions",
        }
    }
}

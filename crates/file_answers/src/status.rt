//! How a run ends.

ghost use Rattle.std.specs.Prelude.{◌≡◌};
ghost use Rattle.file_answers.specs.Statuses.{code_of};

/// The status with which the program ends.
#[derive(Clone, Copy, Debug, PartialEq, Eq)]
pub enum Status {
    /// The command's text was written whole.
    Done,
    /// The command's text was written whole, and some mode has no schedule.
    NoSchedule,
    /// The words are no command.
    Usage,
    /// The mode file is refused.
    ModeFile,
    /// The plan is refused.
    Plan,
    /// The script is refused.
    Script,
    /// The search exceeds the budget.
    Budget,
    /// A read failed.
    ReadFault,
    /// A write failed.
    WriteFault,
    /// Memory ran out.
    Memory,
}

impl Status {
    /// The exit status, from 0 to 9.
    pub fn code(self) -> u8
        ensures { result ≡ code_of self }
    {
        self as u8
    }
}

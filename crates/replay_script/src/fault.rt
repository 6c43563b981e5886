//! What is wrong with a script.

use std::alloc::{AllocError, AllocFailed};
use thiserror::Error;

/// The fault of the first faulty line, by its number from 1, or that memory ran out. Of several faults of a line the first in the order
/// `TooMany`, `BadLine`, `Unknown`, `HostNamed` counts. docs/SCRIPT.md states them.
#[derive(Clone, Copy, Debug, PartialEq, Eq, Error)]
pub enum ScriptFault {
    /// This line has none of the forms, or more than 4,096 bytes without its line feed.
    #[error("line {0} has none of the forms of a script")]
    BadLine(u64),
    /// This line has a name that is not in the mode file.
    #[error("line {0} has an unknown name")]
    Unknown(u64),
    /// This line restarts the host.
    #[error("line {0} restarts the host")]
    HostNamed(u64),
    /// This line is past 10,000 lines or 1,048,576 bytes, or with it the `go` lines have more than 1,000,000 Advances.
    #[error("line {0} is past the limits of a script")]
    TooMany(u64),
    /// Memory ran out.
    #[error("out of memory")]
    Memory,
}

impl From<AllocError> for ScriptFault {
    ghost use Rattle.std.specs.Prelude.{◌≡◌};
    ghost use Rattle.replay_script.specs.declared.fault.ScriptFault.TheVariants.{Memory};

    ghost from_gives = { λ _ fault. fault ≡ Memory };

    fn from(_error: AllocError) -> ScriptFault {
        ScriptFault::Memory
    }
}

impl<T: Drop> From<AllocFailed<T>> for ScriptFault {
    ghost use Rattle.std.specs.Prelude.{◌≡◌};
    ghost use Rattle.replay_script.specs.declared.fault.ScriptFault.TheVariants.{Memory};

    ghost from_gives = { λ _ fault. fault ≡ Memory };

    fn from(_error: AllocFailed<T>) -> ScriptFault {
        ScriptFault::Memory
    }
}

//! Why a document is refused.

use std::alloc::{AllocError, AllocFailed};

/// The first refused line of a document, or that memory ran out. Lines are numbered from 1, modes from 0.
#[derive(Clone, Copy, Debug, PartialEq, Eq)]
pub enum Refused {
    /// This line has none of the forms, or its form may not stand there.
    Grammar(u64),
    /// This line has another name than the due one, or a name that is none of the mode's messages.
    Names(u64),
    /// The schedule of this mode breaks this clause first, from 1 to 8.
    Schedule(u32, u8),
    /// What this line of a tree says is not so.
    BadLeaf(u64),
    /// This line belongs to a tree too many.
    Extra(u64),
    /// In this mode this number of rounds is due, and another stands there.
    MissingCount(u32, u64),
    /// A tree of this mode ends too early.
    Unfinished(u32),
    /// Memory ran out.
    Memory,
}

impl From<AllocError> for Refused {
    ghost use Rattle.std.specs.Prelude.{◌≡◌};
    ghost use Rattle.cert_checker.specs.declared.refused.Refused.TheVariants.{Memory};

    ghost from_gives = { λ _ refused. refused ≡ Memory };

    fn from(_error: AllocError) -> Refused {
        Refused::Memory
    }
}

impl<T: Drop> From<AllocFailed<T>> for Refused {
    ghost use Rattle.std.specs.Prelude.{◌≡◌};
    ghost use Rattle.cert_checker.specs.declared.refused.Refused.TheVariants.{Memory};

    ghost from_gives = { λ _ refused. refused ≡ Memory };

    fn from(_error: AllocFailed<T>) -> Refused {
        Refused::Memory
    }
}

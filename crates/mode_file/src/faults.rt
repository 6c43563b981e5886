//! What is wrong with a mode file.

use app_graph::{GraphFault, Key, Name};
use std::alloc::{AllocError, AllocFailed, Global};
use std::marker::Model;
use ttw_text::is_name;

/// A key as a fault tells it: the key where it is spelled as a name, and `?` otherwise.
/// A contract sees its bytes.
#[derive(Drop)]
pub struct KeyText {
    name: Name,
}

impl Model for KeyText {
    ghost use Rattle.std.specs.Prelude.{ℕ, List};

    ghost Value = { List ℕ };

    ghost view = { λ k. k.name };
}

impl KeyText {
    ghost use Rattle.std.specs.Prelude.{◌≡◌, IfOk};
    ghost use Rattle.mode_file.specs.KeyText.{shown_key};

    /// The text of this key.
    pub fn of(alloc: Global, key: &str) -> Result<Self, AllocError>
        ensures { IfOk result (λ k. k ≡ shown_key key.now) }
    {
        let shown = if is_name(key.as_bytes()) { key } else { "?" };
        Ok(KeyText {
            name: Name::copied(alloc, shown.as_bytes())?,
        })
    }

    /// The bytes of the text.
    pub fn as_bytes(&self) -> &[u8]
        ensures { result.now ≡ self.now }
    {
        self.name.as_bytes()
    }
}

/// The first broken rule of a mode file, or that memory ran out.
#[derive(Drop)]
pub enum FileFault {
    /// The file has more than 1,048,576 bytes.
    TooLong,
    /// The file is no TOML.
    NotToml,
    /// A table lacks this key.
    Missing(Key),
    /// The value of this key has another kind than it is to have.
    WrongKind(Key),
    /// A table has this key, which no table of its kind has.
    UnknownKey(KeyText),
    /// The value of this key is out of its range, or has not the spelling of a name.
    OutOfRange(Key),
    /// This name stands twice.
    Repeated(Name),
    /// This name is no node or no task of the application.
    Unknown(Name),
    /// The producers of this message are on two nodes.
    TwoSenders(Name),
    /// A task of this application is reached from itself.
    Cycle(Name),
    /// The deadline of this application is beyond its mode's hyperperiod.
    DeadlineLong(Name),
    /// There are more of these than the limit.
    TooMany(Key),
    /// Memory ran out.
    Memory,
}

impl From<AllocError> for FileFault {
    ghost use Rattle.std.specs.Prelude.{◌≡◌};
    ghost use Rattle.mode_file.specs.declared.faults.FileFault.TheVariants.{Memory};

    ghost from_gives = { λ _ fault. fault ≡ Memory };

    fn from(_error: AllocError) -> Self {
        FileFault::Memory
    }
}

impl<T: Drop> From<AllocFailed<T>> for FileFault {
    ghost use Rattle.std.specs.Prelude.{◌≡◌};
    ghost use Rattle.mode_file.specs.declared.faults.FileFault.TheVariants.{Memory};

    ghost from_gives = { λ _ fault. fault ≡ Memory };

    fn from(_error: AllocFailed<T>) -> Self {
        FileFault::Memory
    }
}

impl From<GraphFault> for FileFault {
    ghost use Rattle.std.specs.Prelude.{◌≡◌};
    ghost use Rattle.mode_file.specs.Faults.{of_graph};

    ghost from_gives = { λ graph fault. fault ≡ of_graph graph };

    fn from(fault: GraphFault) -> Self {
        match fault {
            GraphFault::OutOfRange(key) => FileFault::OutOfRange(key),
            GraphFault::Repeated(name) => FileFault::Repeated(name),
            GraphFault::Unknown(name) => FileFault::Unknown(name),
            GraphFault::TwoSenders(name) => FileFault::TwoSenders(name),
            GraphFault::Cycle(name) => FileFault::Cycle(name),
            GraphFault::DeadlineLong(name) => FileFault::DeadlineLong(name),
            GraphFault::TooMany(key) => FileFault::TooMany(key),
            GraphFault::Memory => FileFault::Memory,
        }
    }
}

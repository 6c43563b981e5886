//! What is written in answer to a command, and why there may be no answer.

ghost use Rattle.std.specs.Prelude.{◌≡◌, IfOk};

use crate::status::Status;
use std::alloc::{AllocError, Global};
use ttw_text::Out;

/// Why there is no answer to write.
#[derive(Drop)]
pub enum End {
    /// A read failed.
    Read,
    /// Memory ran out.
    Memory,
}

impl From<AllocError> for End {
    ghost use Rattle.file_answers.specs.declared.answers.End.TheVariants.{Memory};

    ghost from_gives = { λ _ e. e ≡ Memory };

    fn from(_: AllocError) -> Self {
        End::Memory
    }
}

/// A status, and the text that goes with it.
#[derive(Drop)]
pub struct Answer {
    pub status: Status,
    pub text: Out,
}

impl Answer {
    /// The answer with this line as its text.
    pub fn told(alloc: Global, status: Status, line: &str) -> Result<Self, AllocError>
        ensures status { IfOk result (λ a. a.status ≡ status) }
        ensures text { IfOk result (λ a. a.text ≡ line.now) }
    {
        let mut text = Out::make(alloc);
        text.put(line.as_bytes())?;
        Ok(Answer { status, text })
    }
}

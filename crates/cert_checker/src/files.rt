//! The check of a plan document in a file, of which one line is in memory at a time.

ghost use Rattle.std.specs.Prelude.{◌≡◌, ◌≤◌, IfErr, IfOk};
ghost use Rattle.std.specs.List.{AllZip};
ghost use Rattle.app_graph.specs.Validation.{KeepsRules};
ghost use Rattle.proof_tree.specs.Accepting.{Accepts, doc_modes};
ghost use Rattle.proof_tree.specs.Fewest.{IsBest};
ghost use Rattle.cert_checker.specs.FileChecking.{EndsCheck, OfBytes};

use crate::checker::Checker;
use crate::checking::Accepted;
use crate::reader::LONGEST;
use crate::refused::Refused;
use app_graph::ModeSet;
use proof_tree::laws::accepted_are_best;
use std::alloc::{AllocError, Global};
use ttw_io::{Files, LineEnd, LineReader};

/// Why the document of a file is not accepted.
#[derive(Clone, Copy, Debug, PartialEq, Eq)]
pub enum CheckEnd {
    /// The document is refused, or memory ran out.
    Refused(Refused),
    /// A read failed, and no line before it is refused.
    ReadFault,
}

impl From<Refused> for CheckEnd {
    ghost use Rattle.std.specs.Prelude.{◌≡◌};
    ghost use Rattle.cert_checker.specs.declared.files.CheckEnd.TheVariants as ends;

    ghost from_gives = { λ refused end. end ≡ ends.Refused refused };

    fn from(refused: Refused) -> CheckEnd {
        CheckEnd::Refused(refused)
    }
}

impl From<AllocError> for CheckEnd {
    ghost use Rattle.std.specs.Prelude.{◌≡◌};
    ghost use Rattle.cert_checker.specs.declared.files.CheckEnd.TheVariants as ends;
    ghost use Rattle.cert_checker.specs.declared.refused.Refused.TheVariants.{Memory};

    ghost from_gives = { λ _ end. end ≡ ends.Refused Memory };

    fn from(_error: AllocError) -> CheckEnd {
        CheckEnd::Refused(Refused::Memory)
    }
}

/// Checks the plan document in a file as `check` does a text, and keeps one line of it at a time. A
/// refused line that stands before a failing read is the refusal.
pub fn check_from<F: Files>(
    alloc: Global,
    set: &ModeSet,
    files: &mut F,
    name: &str,
) -> Result<Accepted, CheckEnd>
    requires { KeepsRules set.now }

    ensures accepted { IfOk result (λ a. OfBytes (F.contents files.old name.now)
        (λ bytes. Accepts set.now bytes a.modes)) }
    ensures best { IfOk result (λ a. AllZip IsBest (doc_modes set.now) a.modes) }
    ensures refused { IfErr result (λ e. EndsCheck (F.contents files.old name.now) set.now
        (F.faults files.old) (F.faults files.new) e) }

    ensures kept { F.contents files.new ≡ F.contents files.old }
    ensures counted { F.faults files.old ≤ F.faults files.new }
{
    let mut reader = LineReader::make(alloc, LONGEST)?;
    let mut checker = Checker::begin(alloc);
    loop {
        match reader.advance(files, name) {
            Ok(true) => checker.take(alloc, set, reader.line())?,
            Ok(false) => break,
            Err(LineEnd::Long) => return Err(CheckEnd::Refused(checker.no_form())),
            Err(LineEnd::Failed) => return Err(CheckEnd::ReadFault),
        }
    }
    accepted_are_best();
    Ok(checker.end()?)
}

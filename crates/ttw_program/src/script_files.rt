//! The script that a command names.

ghost use Rattle.std.specs.Prelude.{◌≡◌, ◌≤◌, IfOk, IsErrOf};
ghost use Rattle.app_graph.specs.Validation.{KeepsRules};
ghost use Rattle.ttw_io.specs.Outside.{Rose};
ghost use Rattle.ttw_program.specs.ScriptFiles.{ScriptSaid, ScriptSaidOf, TellsFault};

use crate::fault_lines::script_line;
use app_graph::{ListOf, ModeSet};
use file_answers::{Answer, End, Status};
use replay_script::{Line, ScriptFault, read_script};
use std::alloc::{AllocError, Global};
use ttw_io::{Files, ReadEnd, read_all};

/// The most bytes that a script may have.
const MOST_BYTES: u64 = 1_048_576;

/// What a script says.
#[derive(Drop)]
pub(crate) enum ScriptFile {
    /// Its lines, with numbers in place of names.
    Lines(ListOf<Line>),
    /// Nothing: the answer that refuses it.
    Refused(Answer),
}

/// The answer to a script with this fault, or that memory ran out.
fn refused(alloc: Global, fault: ScriptFault) -> Result<Answer, AllocError>
    ensures { IfOk result (λ a. TellsFault fault a.status a.text) }
{
    match fault {
        ScriptFault::Memory => Err(AllocError),
        _ => {
            let text = script_line(alloc, fault)?;
            Ok(Answer {
                status: Status::Script,
                text,
            })
        }
    }
}

/// What the bytes of a script say.
fn read_bytes(alloc: Global, set: &ModeSet, bytes: &[u8]) -> Result<ScriptFile, AllocError>
    requires { KeepsRules set.now }
    ensures { IfOk result (ScriptSaid set.now bytes.now) }
{
    match read_script(alloc, set, bytes) {
        Ok(script) => Ok(ScriptFile::Lines(script)),
        Err(fault) => Ok(ScriptFile::Refused(refused(alloc, fault)?)),
    }
}

/// Reads the script of this name for the set. Of a script that is longer than its limit the bytes up
/// to one past it are read: they have the fault of the whole.
pub(crate) fn read_script_file<F: Files>(
    alloc: Global,
    set: &ModeSet,
    script: &str,
    files: &mut F,
) -> Result<ScriptFile, End>
    requires { KeepsRules set.now }

    ensures says { IfOk result (ScriptSaidOf set.now (F.contents files.old script.now)) }
    ensures read { IsErrOf result End.Read → Rose (F.faults files.old) (F.faults files.new) }

    ensures counted { F.faults files.old ≤ F.faults files.new }
{
    match read_all(alloc, files, script, MOST_BYTES) {
        Ok(bytes) => Ok(read_bytes(alloc, set, bytes.as_slice())?),
        Err(ReadEnd::Long(bytes)) => Ok(read_bytes(alloc, set, bytes.as_slice())?),
        Err(ReadEnd::Failed) => Err(End::Read),
        Err(ReadEnd::Memory) => Err(End::Memory),
    }
}

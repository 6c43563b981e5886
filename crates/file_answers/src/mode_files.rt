//! The mode file that a command names.

ghost use Rattle.std.specs.Prelude.{◌≡◌, ◌≤◌, IfOk, IsErrOf};
ghost use Rattle.ttw_io.specs.Outside.{Rose};
ghost use Rattle.file_answers.specs.FaultLines.{Refuses};
ghost use Rattle.file_answers.specs.ModeFiles.{Said, SaysOf};

use crate::answers::{Answer, End};
use crate::fault_lines::file_fault_line;
use crate::status::Status;
use app_graph::ModeSet;
use mode_file::{FileFault, read_modes};
use std::alloc::{AllocError, Global};
use ttw_io::{Files, ReadEnd, read_all};

/// The most bytes that a mode file may have.
const MOST_BYTES: u64 = 1_048_576;

/// What a mode file says.
#[derive(Drop)]
pub enum ModeFile {
    /// A mode set.
    Set(ModeSet),
    /// Nothing: the answer that refuses it.
    Refused(Answer),
}

/// The answer to a mode file with this fault, or that memory ran out.
fn refused(alloc: Global, fault: &FileFault) -> Result<Answer, AllocError>
    ensures { IfOk result (λ a. Refuses fault.now a.status a.text) }
{
    match fault {
        FileFault::Memory => Err(AllocError),
        _ => {
            let text = file_fault_line(alloc, fault)?;
            Ok(Answer {
                status: Status::ModeFile,
                text,
            })
        }
    }
}

/// What the bytes of a mode file say.
fn read_bytes(alloc: Global, bytes: &[u8]) -> Result<ModeFile, AllocError>
    ensures { IfOk result (Said bytes.now) }
{
    match read_modes(alloc, bytes) {
        Ok(set) => Ok(ModeFile::Set(set)),
        Err(fault) => Ok(ModeFile::Refused(refused(alloc, &fault)?)),
    }
}

/// Reads the mode file of this name.
pub fn read_mode_file<F: Files>(alloc: Global, file: &str, files: &mut F) -> Result<ModeFile, End>
    ensures says { IfOk result (SaysOf (F.contents files.old file.now)) }
    ensures read { IsErrOf result End.Read → Rose (F.faults files.old) (F.faults files.new) }
    ensures kept { F.contents files.new ≡ F.contents files.old }
    ensures counted { F.faults files.old ≤ F.faults files.new }
{
    match read_all(alloc, files, file, MOST_BYTES) {
        Ok(bytes) => Ok(read_bytes(alloc, bytes.as_slice())?),
        Err(ReadEnd::Long(_bytes)) => Ok(ModeFile::Refused(refused(alloc, &FileFault::TooLong)?)),
        Err(ReadEnd::Failed) => Err(End::Read),
        Err(ReadEnd::Memory) => Err(End::Memory),
    }
}

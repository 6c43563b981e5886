//! The end of a run: its text is written whole, and flushed once.

ghost use Rattle.std.specs.Prelude.{◌≡◌, ◌≤◌, false};
ghost use Rattle.ttw_io.specs.Outside.{one_more};
ghost use Rattle.file_answers.specs.Endings.{Finishes, IsFlushed};

use crate::status::Status;
use ttw_io::{Sink, write_all};

/// Flushes once the text that goes with this status was written.
pub fn flush<S: Sink>(out: &mut S, status: Status) -> Status
    ensures end { IsFlushed status (S.faults out.old) (S.faults out.new) result }
    ensures once { S.flushes out.new ≡ one_more (S.flushes out.old) }
    ensures last { S.unflushed out.new ≡ false }

    ensures kept { S.held out.new ≡ S.held out.old }
    ensures counted { S.faults out.old ≤ S.faults out.new }
{
    if out.flush().is_err() {
        return Status::WriteFault;
    }
    status
}

/// Writes the text and flushes.
pub fn finish<S: Sink>(out: &mut S, status: Status, text: &[u8]) -> Status
    ensures end { Finishes status text.now (record { faults_before = S.faults out.old; faults_now = S.faults out.new; flushes_before = S.flushes out.old; flushes_now = S.flushes out.new; unflushed = S.unflushed out.new }) (S.held out.old) (S.held out.new) result }
    ensures counted { S.faults out.old ≤ S.faults out.new }
{
    if write_all(out, text).is_err() {
        return Status::WriteFault;
    }
    flush(out, status)
}

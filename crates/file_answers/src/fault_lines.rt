//! The lines that tell why a command is refused.

ghost use Rattle.std.specs.Prelude.{◌≡◌, ◌++◌, IfOk, OnOk};
ghost use Rattle.ttw_text.specs.Numbers.{spelled};
ghost use Rattle.sched_model.specs.PlainMode.{mode_at};
ghost use Rattle.cert_checker.specs.Refusals as refusals;
ghost use Rattle.file_answers.specs.PlanFiles as plans;
ghost use Rattle.file_answers.specs.PlanFiles.{refusal_said};
ghost use Rattle.file_answers.specs.FaultLines as lines;
ghost use Rattle.file_answers.specs.FaultLines.{said};

use app_graph::ModeSet;
use cert_checker::Refused;
use mode_file::FileFault;
use sched_model::mode_name;
use std::alloc::{AllocError, Global};
use ttw_text::Out;

/// The line of a file that was not read.
pub const READ_FAULT: &str = "read fault\n";

/// What is said of a refused mode file: some words, and the key or name that they speak of.
fn said_of(fault: &FileFault) -> (&'static str, &[u8])
    ensures { result.0.now ++ result.1.now ≡ said fault.now }
{
    match fault {
        FileFault::TooLong => ("too long", &[]),
        FileFault::NotToml => ("not TOML", &[]),
        FileFault::Missing(key) => ("missing ", key.text().as_bytes()),
        FileFault::WrongKind(key) => ("wrong kind ", key.text().as_bytes()),
        FileFault::UnknownKey(key) => ("unknown key ", key.as_bytes()),
        FileFault::OutOfRange(key) => ("out of range ", key.text().as_bytes()),
        FileFault::Repeated(name) => ("repeated ", name.as_bytes()),
        FileFault::Unknown(name) => ("unknown ", name.as_bytes()),
        FileFault::TwoSenders(name) => ("two senders ", name.as_bytes()),
        FileFault::Cycle(name) => ("cycle ", name.as_bytes()),
        FileFault::DeadlineLong(name) => ("deadline ", name.as_bytes()),
        FileFault::TooMany(key) => ("too many ", key.text().as_bytes()),
        FileFault::Memory => ("", &[]),
    }
}

/// The line of a refused mode file.
pub fn file_fault_line(alloc: Global, fault: &FileFault) -> Result<Out, AllocError>
    ensures { IfOk result (λ out. out ≡ lines.file_fault_line fault.now) }
{
    let (words, named) = said_of(fault);
    let mut out = Out::make(alloc);
    out.put(b"modes: ")?;
    out.put(words.as_bytes())?;
    out.put(named)?;
    out.line_end()?;
    Ok(out)
}

/// Adds some words and a number.
pub fn write_numbered(words: &[u8], number: u64, out: &mut Out) -> Result<(), AllocError>
    ensures { OnOk result (out.new ≡ out.old ++ (words.now ++ spelled number)) }
{
    out.put(words)?;
    out.number(number)
}

/// Adds what is said of a refused plan.
fn write_refusal(set: &ModeSet, refused: Refused, out: &mut Out) -> Result<(), AllocError>
    ensures { OnOk result (out.new ≡ out.old ++ refusal_said set.now (refusals.said refused)) }
{
    match refused {
        Refused::Grammar(line) => write_numbered(b"grammar line ", line, out),
        Refused::Names(line) => write_numbered(b"names line ", line, out),
        Refused::Schedule(mode, clause) => {
            out.put(b"schedule ")?;
            out.put(mode_name(set, mode))?;
            write_numbered(b" S", clause as u64, out)
        }
        Refused::BadLeaf(line) => write_numbered(b"bad leaf line ", line, out),
        Refused::Extra(line) => write_numbered(b"extra line ", line, out),
        Refused::MissingCount(mode, rounds) => {
            out.put(b"missing ")?;
            out.put(mode_name(set, mode))?;
            write_numbered(b" ", rounds, out)
        }
        Refused::Unfinished(mode) => {
            out.put(b"unfinished ")?;
            out.put(mode_name(set, mode))?;
            Ok(())
        }
        Refused::Memory => Ok(()),
    }
}

/// The line of a refused plan.
pub fn refusal_line(alloc: Global, set: &ModeSet, refused: Refused) -> Result<Out, AllocError>
    ensures { IfOk result (λ out. out ≡ plans.refusal_line set.now (refusals.said refused)) }
{
    let mut out = Out::make(alloc);
    out.put(b"plan: ")?;
    write_refusal(set, refused, &mut out)?;
    out.line_end()?;
    Ok(out)
}

/// The line of a plan in which the mode is the first without a schedule.
pub fn none_line(alloc: Global, set: &ModeSet, mode: u32) -> Result<Out, AllocError>
    ensures { IfOk result (λ out. out ≡ plans.none_line (mode_at set.now mode).name) }
{
    let mut out = Out::make(alloc);
    out.put(b"plan: none ")?;
    out.put(mode_name(set, mode))?;
    out.line_end()?;
    Ok(out)
}

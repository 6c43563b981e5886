//! The lines that tell why a command is refused.

ghost use Rattle.std.specs.Prelude.{◌≡◌, ◌++◌, IfOk, OnOk};
ghost use Rattle.mode_file.specs.declared.faults.FileFault.TheVariants.{Unknown};
ghost use Rattle.ttw_program.specs.Bodies as bodies;
ghost use Rattle.ttw_program.specs.ScriptFiles as scripts;
ghost use Rattle.ttw_program.specs.ScriptFiles.{fault_said};
ghost use Rattle.ttw_program.specs.FaultLines as lines;
ghost use Rattle.file_answers.specs.FaultLines as refusals;
ghost use Rattle.file_answers.specs.FaultLines.{said};

use file_answers::write_numbered;
use replay_script::ScriptFault;
use std::alloc::{AllocError, Global};
use ttw_text::Out;

/// The line of words that are no command.
pub(crate) const USAGE: &str =
    "usage: plan FILE BUDGET, check FILE PLAN, tables FILE PLAN NODE, replay FILE PLAN SCRIPT, drill SEED, latency FILE BUDGET, guard FILE PPM\n";

/// The line of a mode whose search exceeds the budget at so many rounds.
pub(crate) fn budget_line(alloc: Global, mode: &[u8], rounds: u64) -> Result<Out, AllocError>
    ensures { IfOk result (λ out. out ≡ lines.budget_line mode.now rounds) }
{
    let mut out = Out::make(alloc);
    out.put(b"budget: mode ")?;
    out.put(mode)?;
    out.put(b" at ")?;
    out.number(rounds)?;
    out.put(b" rounds")?;
    out.line_end()?;
    Ok(out)
}

/// The line of a name of no node.
pub(crate) fn unknown_node_line(alloc: Global, name: &[u8]) -> Result<Out, AllocError>
    ensures { IfOk result (λ out. out ≡ refusals.file_fault_line (Unknown name.now)) }
{
    let mut out = Out::make(alloc);
    out.put(b"modes: unknown ")?;
    out.put(name)?;
    out.line_end()?;
    Ok(out)
}

/// The line of a task's body, by its name, that none of the bodies is.
pub(crate) fn no_body_line(alloc: Global, name: &[u8]) -> Result<Out, AllocError>
    ensures { IfOk result (λ out. out ≡ bodies.no_body_line name.now) }
{
    let mut out = Out::make(alloc);
    out.put(b"modes: no body ")?;
    out.put(name)?;
    out.line_end()?;
    Ok(out)
}

/// Adds what is said of a refused script.
fn write_script_fault(fault: ScriptFault, out: &mut Out) -> Result<(), AllocError>
    ensures { OnOk result (out.new ≡ out.old ++ fault_said fault) }
{
    match fault {
        ScriptFault::BadLine(line) => write_numbered(b"bad line ", line, out),
        ScriptFault::Unknown(line) => write_numbered(b"unknown line ", line, out),
        ScriptFault::HostNamed(line) => write_numbered(b"host line ", line, out),
        ScriptFault::TooMany(line) => write_numbered(b"too many line ", line, out),
        ScriptFault::Memory => Ok(()),
    }
}

/// The line of a refused script.
pub(crate) fn script_line(alloc: Global, fault: ScriptFault) -> Result<Out, AllocError>
    ensures { IfOk result (λ out. out ≡ scripts.script_line fault) }
{
    let mut out = Out::make(alloc);
    out.put(b"script: ")?;
    write_script_fault(fault, &mut out)?;
    out.line_end()?;
    Ok(out)
}

//! Replays of scripts.

ghost use Rattle.std.specs.Prelude.{◌≡◌, ◌≤◌, IfOk, IsErrOf, map};
ghost use Rattle.app_graph.specs.Validation.{KeepsRules};
ghost use Rattle.replay_script.specs.Fitting.{FitsScript};
ghost use Rattle.ttw_io.specs.Buffering.{OnlyWrites};
ghost use Rattle.ttw_io.specs.Outside.{Rose};
ghost use Rattle.runtime_model.specs.Script.{until_beacon, go};
ghost use Rattle.replayer.specs.Replaying.{IsCut, IsNewWorld, IsReplayed, IsUntouched, OfReplay};
ghost use Rattle.replayer.specs.Running.{IsDone, MayDo, line_of_event, under};
ghost use Rattle.replayer.specs.Scripts.{plain_line};

use crate::counts::Counts;
use crate::tracer::Tracer;
use app_graph::ModeSet;
use node_core::Inputs;
use replay_script::Line;
use std::alloc::{AllocError, Global};
use task_body::TaskBody;
use ttw_io::{Failed, Sink};
use world_core::{Event, World};

/// Why a replay did not come to its end.
#[derive(Clone, Copy, Debug, PartialEq, Eq)]
pub enum ReplayEnd {
    /// A write failed: a prefix of the trace was written.
    WriteFault,
    /// Memory ran out before the first event: nothing was written, and the world and the bodies are
    /// as they were.
    Memory,
}

impl From<AllocError> for ReplayEnd {
    ghost use Rattle.std.specs.Prelude.{◌≡◌};
    ghost use Rattle.replayer.specs.declared.replaying.ReplayEnd.TheVariants.{Memory};

    ghost from_gives = { λ _ end. end ≡ Memory };

    fn from(_: AllocError) -> Self {
        ReplayEnd::Memory
    }
}

impl From<Failed> for ReplayEnd {
    ghost use Rattle.std.specs.Prelude.{◌≡◌};
    ghost use Rattle.replayer.specs.declared.replaying.ReplayEnd.TheVariants.{WriteFault};

    ghost from_gives = { λ _ end. end ≡ WriteFault };

    fn from(_: Failed) -> Self {
        ReplayEnd::WriteFault
    }
}

/// Performs an event, and writes its line. The inputs of a start come in place of others.
fn perform<S: Sink>(
    event: Event,
    inputs: &mut Inputs,
    world: &mut World,
    bodies: &mut Vec<Box<dyn TaskBody>>,
    tracer: &mut Tracer<'_>,
    out: &mut S,
) -> Result<(), Failed>
    requires { MayDo
        (under world.old (map seen bodies.old.items) (S.held out.old) tracer.old)
        (line_of_event event) }

    ensures done { IsDone result
        (under world.old (map seen bodies.old.items) (S.held out.old) tracer.old)
        (line_of_event event)
        (under world.new (map seen bodies.new.items) (S.held out.new) tracer.new) }

    ensures sink { OnlyWrites result (S.faults out.old) (S.faults out.new)
        (S.flushes out.old) (S.flushes out.new) }
{
    let done = world.step_with(event, bodies, inputs);
    tracer.tell(&done, inputs, out)
}

/// Performs so many Advances without loss. The inputs of a start come in place of others.
fn advance<S: Sink>(
    n: u64,
    inputs: &mut Inputs,
    world: &mut World,
    bodies: &mut Vec<Box<dyn TaskBody>>,
    tracer: &mut Tracer<'_>,
    out: &mut S,
) -> Result<(), Failed>
    requires { MayDo
        (under world.old (map seen bodies.old.items) (S.held out.old) tracer.old) (go n) }

    ensures done { IsDone result
        (under world.old (map seen bodies.old.items) (S.held out.old) tracer.old) (go n)
        (under world.new (map seen bodies.new.items) (S.held out.new) tracer.new) }

    ensures sink { OnlyWrites result (S.faults out.old) (S.faults out.new)
        (S.flushes out.old) (S.flushes out.new) }
{
    for _ in 0..n {
        perform(Event::Advance(0), inputs, world, bodies, tracer, out)?;
    }
    Ok(())
}

/// Performs Advances without loss until the next entry is a beacon. The inputs of a start come in
/// place of others.
fn advance_to_beacon<S: Sink>(
    inputs: &mut Inputs,
    world: &mut World,
    bodies: &mut Vec<Box<dyn TaskBody>>,
    tracer: &mut Tracer<'_>,
    out: &mut S,
) -> Result<(), Failed>
    requires { MayDo
        (under world.old (map seen bodies.old.items) (S.held out.old) tracer.old) until_beacon }

    ensures done { IsDone result
        (under world.old (map seen bodies.old.items) (S.held out.old) tracer.old) until_beacon
        (under world.new (map seen bodies.new.items) (S.held out.new) tracer.new) }

    ensures sink { OnlyWrites result (S.faults out.old) (S.faults out.new)
        (S.flushes out.old) (S.flushes out.new) }
{
    for _ in 0..u64::MAX {
        if world.beacon_next() {
            return Ok(());
        }
        perform(Event::Advance(0), inputs, world, bodies, tracer, out)?;
    }
    Ok(())
}

/// Performs the events of a line. The inputs of a start come in place of others.
fn perform_line<S: Sink>(
    line: Line,
    inputs: &mut Inputs,
    world: &mut World,
    bodies: &mut Vec<Box<dyn TaskBody>>,
    tracer: &mut Tracer<'_>,
    out: &mut S,
) -> Result<(), Failed>
    requires { MayDo
        (under world.old (map seen bodies.old.items) (S.held out.old) tracer.old)
        (plain_line line) }

    ensures done { IsDone result
        (under world.old (map seen bodies.old.items) (S.held out.old) tracer.old)
        (plain_line line)
        (under world.new (map seen bodies.new.items) (S.held out.new) tracer.new) }

    ensures sink { OnlyWrites result (S.faults out.old) (S.faults out.new)
        (S.flushes out.old) (S.flushes out.new) }
{
    match line {
        Line::Go(n) => advance(n, inputs, world, bodies, tracer, out),
        Line::UntilBeacon => advance_to_beacon(inputs, world, bodies, tracer, out),
        Line::Lose(nodes) => perform(Event::Advance(nodes), inputs, world, bodies, tracer, out),
        Line::Request(mode) => perform(Event::Request(mode), inputs, world, bodies, tracer, out),
        Line::Restart(node) => perform(Event::Restart(node), inputs, world, bodies, tracer, out),
    }
}

/// Performs the events of the lines of a script, and writes their trace to the sink as they happen:
/// a line for each, and the last one. Answers their counts. The world is new: it stands for no
/// events of the set with some right schedules and these bodies.
///
/// Errors: a failed write, after which a prefix of the trace was written; want of memory, which
/// comes before the first event and leaves the world and the bodies as they were. No event takes
/// memory. docs/TRACE.md has the lines, docs/SCRIPT.md what a script says.
pub fn replay<S: Sink>(
    alloc: Global,
    world: &mut World,
    set: &ModeSet,
    lines: &[Line],
    bodies: &mut Vec<Box<dyn TaskBody>>,
    out: &mut S,
) -> Result<Counts, ReplayEnd>
    requires rules { KeepsRules set.now }
    requires fits { FitsScript set.now lines.now }
    requires new { IsNewWorld set.now world.old (map seen bodies.old.items) }

    ensures whole { IfOk result (λ counts.
        OfReplay set.now lines.now world.old (map seen bodies.old.items)
        (IsReplayed set.now (map seen bodies.old.items) (S.held out.old) (S.held out.new) counts
        world.new (map seen bodies.new.items))) }
    ensures cut { IsErrOf result ReplayEnd.WriteFault →
        OfReplay set.now lines.now world.old (map seen bodies.old.items)
        (IsCut set.now (map seen bodies.old.items) (S.held out.old) (S.held out.new)) }
    ensures fault { IsErrOf result ReplayEnd.WriteFault →
        Rose (S.faults out.old) (S.faults out.new) }
    ensures memory { IsErrOf result ReplayEnd.Memory →
        IsUntouched (S.held out.old) (S.held out.new) world.old world.new
        (map seen bodies.old.items) (map seen bodies.new.items) }

    ensures counted { S.faults out.old ≤ S.faults out.new }
    ensures same_flushes { S.flushes out.new ≡ S.flushes out.old }
{
    let mut tracer = Tracer::make(alloc, set)?;
    let mut inputs = Inputs::new();
    for line in lines {
        perform_line(*line, &mut inputs, world, bodies, &mut tracer, out)?;
    }
    tracer.done(out)?;
    Ok(tracer.counts())
}

//! The end of a run: its text is written whole, and flushed once.

ghost use Rattle.std.specs.Prelude.{◌≤◌, map};
ghost use Rattle.app_graph.specs.Validation.{KeepsRules};
ghost use Rattle.replay_script.specs.Fitting.{FitsScript};
ghost use Rattle.world_core.specs.StandsFor.{system_with};
ghost use Rattle.replayer.specs.Replaying.{IsNewWorld, OfReplay};
ghost use Rattle.replayer.specs.Trace.{trace};
ghost use Rattle.file_answers.specs.Endings.{FinishesOrNot};

use crate::replaying::Replay;
use file_answers::{Status, flush};
use replayer::{ReplayEnd, replay};
use std::alloc::Global;
use task_body::TaskBody;
use ttw_io::Sink;

/// Performs the replay, writes its trace as it happens, and flushes.
pub(crate) fn finish_replay<S: Sink>(
    alloc: Global,
    due: Replay,
    bodies: &mut Vec<Box<dyn TaskBody>>,
    out: &mut S,
) -> Status
    requires rules { KeepsRules due.set }
    requires fits { FitsScript due.set due.script }
    requires new { IsNewWorld due.set due.world (map seen bodies.old.items) }

    ensures end { OfReplay due.set due.script due.world (map seen bodies.old.items) (λ schedules es.
        FinishesOrNot Status.Done
        (trace due.set (system_with due.set schedules (map seen bodies.old.items)) es)
        (record { faults_before = S.faults out.old; faults_now = S.faults out.new; flushes_before = S.flushes out.old; flushes_now = S.flushes out.new; unflushed = S.unflushed out.new })
        (S.held out.old) (S.held out.new) result) }

    ensures counted { S.faults out.old ≤ S.faults out.new }
{
    let Replay {
        set,
        mut world,
        script,
    } = due;
    match replay(alloc, &mut world, &set, script.as_slice(), bodies, out) {
        Ok(_counts) => flush(out, Status::Done),
        Err(ReplayEnd::WriteFault) => Status::WriteFault,
        Err(ReplayEnd::Memory) => Status::Memory,
    }
}

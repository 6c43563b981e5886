//! The trace of a replay as it is written, and what is counted of it.

ghost use Rattle.std.specs.Prelude.{◌≡◌, ◌+◌, ◌^◌, ◌<◌, ◌++◌, [], IfOk, OnErr, OnOk};
ghost use Rattle.std.specs.Io.KnownBytes.{append_known};
ghost use Rattle.ttw_io.specs.Buffering.{HasPut, OnlyWrites};
ghost use Rattle.ttw_io.specs.Outside.{AddsFront};
ghost use Rattle.world_core.specs.Done.{whole};
ghost use Rattle.replayer.specs.Counting.{CountsOneMore, HasRoom, counts_of};
ghost use Rattle.replayer.specs.Trace.{done_line, line};

use crate::counts::Counts;
use crate::line::{put_done, put_line};
use crate::names::Names;
use app_graph::ModeSet;
use node_core::Inputs;
use std::alloc::{AllocError, Global};
use ttw_io::{Buffer, Failed, Sink};
use world_core::Done;

/// How many bytes of a trace are held back at most, so that not each line is a write.
const HELD_BACK: usize = 65536;

/// Writes a line for each thing that happened, and counts it.
#[derive(Drop)]
pub(crate) struct Tracer<'a> {
    names: Names<'a>,
    buffer: Buffer,
    counts: Counts,
}

impl<'a> Tracer<'a> {
    /// Nothing happened yet in a world of this set.
    pub(crate) fn make(alloc: Global, set: &'a ModeSet) -> Result<Self, AllocError>
        ensures start { IfOk result (λ t. t ≡ record {
          names = set.now;
          buffer = record { bytes = []; room = HELD_BACK };
          counts = counts_of [];
        }) }
        ensures room { IfOk result (λ t. HasRoom t.counts) }
    {
        Ok(Tracer {
            names: Names::make(alloc, set)?,
            buffer: Buffer::make(alloc, HELD_BACK)?,
            counts: Counts::none(),
        })
    }

    /// Puts the line of what happened, and counts it. Where there is room for the line, it is held
    /// back, and nothing is written.
    pub(crate) fn tell<S: Sink>(
        &mut self,
        done: &Done,
        inputs: &Inputs,
        out: &mut S,
    ) -> Result<(), Failed>
        requires { HasRoom self.old.counts }

        ensures put { HasPut result (S.held out.old) (S.held out.new)
            self.old.buffer self.new.buffer (line self.old.names (whole done.now inputs.now)) }
        ensures counted { CountsOneMore self.old.counts (whole done.now inputs.now) self.new.counts }
        ensures one_more { self.new.counts.events ≡ self.old.counts.events + 1 }
        ensures room { self.new.counts.events < 2 ^ 61 → HasRoom self.new.counts }

        ensures same_names { self.new.names ≡ self.old.names }
        ensures sink { OnlyWrites result (S.faults out.old) (S.faults out.new)
            (S.flushes out.old) (S.flushes out.new) }
    {
        self.counts.add(done);
        put_line(&self.names, done, inputs, &mut self.buffer, out)
    }

    /// Writes all that is held back, and the last line.
    pub(crate) fn done<S: Sink>(&mut self, out: &mut S) -> Result<(), Failed>
        ensures ok { OnOk result (S.held out.new ≡ append_known (S.held out.old)
            (self.old.buffer.bytes ++ done_line self.old.counts.events)) }
        ensures err { OnErr result (AddsFront (S.held out.old) (S.held out.new)
            (self.old.buffer.bytes ++ done_line self.old.counts.events)) }

        ensures same_counts { self.new.counts ≡ self.old.counts }
        ensures sink { OnlyWrites result (S.faults out.old) (S.faults out.new)
            (S.flushes out.old) (S.flushes out.new) }
    {
        put_done(self.counts.events, &mut self.buffer, out)?;
        self.buffer.empty(out)
    }

    /// What was counted.
    pub(crate) fn counts(&self) -> Counts
        ensures { result ≡ self.now.counts }
    {
        self.counts
    }
}

//! A buffer before a sink, so that many short texts need few writes.

ghost use Rattle.std.specs.Prelude.{◌≡◌, ◌+◌, ◌<◌, ◌≤◌, IfOk, OnErr, OnOk, [], length, vec_capacity, vec_len};
ghost use Rattle.std.specs.Io.KnownBytes.{append_known};
ghost use Rattle.std.specs.List.{flat_map};
ghost use Rattle.ttw_io.specs.Buffering.{HasPut, HeldBack, OnlyWrites, WritesAtNeed};
ghost use Rattle.ttw_io.specs.Outside.{AddsFront};

use crate::outside::{Failed, Sink};
use crate::writing::write_all;
use std::alloc::{AllocError, Global};
use std::marker::Model;

/// Bytes that are yet to be written, and how many there is room for. All their memory is taken when
/// the buffer is made.
#[derive(Drop)]
pub struct Buffer {
    bytes: Vec<u8>,
    room: usize,
}

impl Model for Buffer {
    ghost Value = { HeldBack };

    ghost view = { λ b. record { bytes = b.bytes.items; room = b.room } };

    ghost invariant = { (λ b. (vec_len b.bytes ≤ b.room) × (b.room ≤ vec_capacity b.bytes)) };
}

impl Buffer {
    /// An empty buffer with room for so many bytes.
    pub fn make(alloc: Global, room: usize) -> Result<Self, AllocError>
        ensures { IfOk result (λ b. b ≡ record { bytes = []; room = room }) }
    {
        Ok(Buffer {
            bytes: Vec::with_capacity(alloc, room)?,
            room,
        })
    }

    /// Writes all that it holds. After a failure a prefix of it was added.
    pub fn empty<S: Sink>(&mut self, out: &mut S) -> Result<(), Failed>
        ensures ok { OnOk result (S.held out.new ≡ append_known (S.held out.old) self.old.bytes) }
        ensures none_left { OnOk result (self.new.bytes ≡ []) }
        ensures err { OnErr result (AddsFront (S.held out.old) (S.held out.new) self.old.bytes) }

        ensures room { self.new.room ≡ self.old.room }
        ensures sink { OnlyWrites result (S.faults out.old) (S.faults out.new)
            (S.flushes out.old) (S.flushes out.new) }
    {
        write_all(out, self.bytes.as_slice())?;
        self.bytes.clear();
        Ok(())
    }

    /// Puts a text behind the bytes that it holds. Where there is no room for it, those bytes are
    /// written first, and a text that is longer than the whole room is then written too. Nothing is
    /// written otherwise.
    #[inline]
    pub fn put<S: Sink>(&mut self, text: &[u8], out: &mut S) -> Result<(), Failed>
        ensures put { HasPut result (S.held out.old) (S.held out.new) self.old self.new text.now }
        ensures at_need { WritesAtNeed result
            (S.held out.old) (S.held out.new) self.old self.new text.now }

        ensures sink { OnlyWrites result (S.faults out.old) (S.faults out.new)
            (S.flushes out.old) (S.flushes out.new) }
    {
        if text.len() <= self.room - self.bytes.len() {
            self.bytes.extend_from_slice(text).unwrap();
            return Ok(());
        }
        self.put_over(text, out)
    }

    /// Puts a text for which there is no room beside the bytes that it holds.
    #[cold]
    #[inline(never)]
    fn put_over<S: Sink>(&mut self, text: &[u8], out: &mut S) -> Result<(), Failed>
        requires { self.old.room < length self.old.bytes + length text.now }

        ensures put { HasPut result (S.held out.old) (S.held out.new) self.old self.new text.now }
        ensures at_need { WritesAtNeed result
            (S.held out.old) (S.held out.new) self.old self.new text.now }

        ensures sink { OnlyWrites result (S.faults out.old) (S.faults out.new)
            (S.flushes out.old) (S.flushes out.new) }
    {
        self.empty(out)?;
        if text.len() <= self.room {
            self.bytes.extend_from_slice(text).unwrap();
            return Ok(());
        }
        write_all(out, text)
    }

    /// Puts texts, one behind the other, as `put` does with each.
    #[inline]
    pub fn put_all<S: Sink>(&mut self, texts: &[&[u8]], out: &mut S) -> Result<(), Failed>
        ensures put { HasPut result (S.held out.old) (S.held out.new)
            self.old self.new (flat_map (λ t. t.now) texts.now) }

        ensures sink { OnlyWrites result (S.faults out.old) (S.faults out.new)
            (S.flushes out.old) (S.flushes out.new) }
    {
        for text in texts {
            self.put(text, out)?;
        }
        Ok(())
    }
}

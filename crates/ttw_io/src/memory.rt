//! Files and sinks in memory, for tests and for calls whose text is dropped.

ghost use Rattle.std.specs.Prelude.{◌≡◌, ℕ, ◌≤◌, ◌<◌, ◌↔◌, ◌⊎◌, ◌++◌, [], length, take, Contains, Some, None, true, false, IfOk, IfSome, IfNone, IsErr, OnErr, OnOk, vec_capacity, vec_len};
ghost use Rattle.ttw_io.specs.Outside.{Told, missing, file, IsRead, ReadsAt, one_more};
ghost use Rattle.ttw_io.specs.Memory.{FilesInMemory, SinkInMemory, named, look_up, room_left, taken};

use crate::outside::{Failed, Faults, Files, Flushes, Sink};
use std::alloc::{AllocError, Global};
use std::marker::Model;

/// The bytes of the first file of that name.
fn find<'a>(files: &'a [(String, Vec<u8>)], name: &str) -> Option<&'a [u8]>
    ensures some { IfSome result (λ bytes. (none : Told) → look_up none (named files.now) name.now ≡ file bytes.now) }
    ensures none { IfNone result ((none : Told) → look_up none (named files.now) name.now ≡ none) }
{
    for f in files {
        if f.0.as_str() == name {
            return Some(f.1.as_slice());
        }
    }
    None
}

/// Copies the bytes from a place on, as many as there are and as fit.
fn copy_at(bytes: &[u8], at: u64, into: &mut [u8]) -> usize
    ensures room { result ≤ length into.new }
    ensures read { IsRead bytes.now at result into.new }
{
    if at >= bytes.len() as u64 {
        return 0;
    }
    let from = at as usize;
    let n = (bytes.len() - from).min(into.len());
    into[..n].copy_from_slice(&bytes[from..from + n]);
    n
}

/// The calls that were made, and the numbers of those that fail.
#[derive(Drop)]
struct Calls {
    fail: Vec<u64>,
    made: u64,
    faults: Faults,
}

impl Calls {
    fn none(fail: Vec<u64>) -> Self
        ensures { result ≡ record { fail = fail; made = 0; faults = 0 } }
    {
        Calls {
            fail,
            made: 0,
            faults: Faults::none(),
        }
    }

    /// Begins the next call, which fails where its number is one of those.
    fn begin(&mut self) -> Result<(), Failed>
        ensures due { IsErr result ↔ Contains self.old.fail.items (one_more self.old.made) }
        ensures counted { self.old.faults ≤ self.new.faults }
        ensures ok { OnOk result (self.new ≡ record self.old { made = one_more self.old.made }) }
        ensures err { OnErr result
            (self.new ≡ record self.old { made = one_more self.old.made; faults = one_more self.old.faults }) }
    {
        self.made = self.made.saturating_add(1);
        if self.fail.contains(&self.made) {
            return Err(self.faults.add());
        }
        Ok(())
    }
}

/// Files in memory. A call with one of the numbers that they were given fails, and so does the read
/// of a name that they were not given.
#[derive(Drop)]
pub struct MemFiles {
    files: Vec<(String, Vec<u8>)>,
    calls: Calls,
}

impl Model for MemFiles {
    ghost Value = { FilesInMemory };

    ghost view = { λ m. record {
      files = named m.files.items;
      fail = m.calls.fail.items;
      made = m.calls.made;
      faults = m.calls.faults;
    } };
}

impl MemFiles {
    /// Takes over the files, of two equal names the first, and the numbers, from 1, of the calls that
    /// are to fail.
    pub fn make(files: Vec<(String, Vec<u8>)>, fail: Vec<u64>) -> Self
        ensures { result ≡ record { files = named files.items; fail = fail.items; made = 0; faults = 0 } }
    {
        MemFiles {
            files,
            calls: Calls::none(fail),
        }
    }
}

impl Files for MemFiles {
    ghost contents = { λ m. look_up missing m.files };

    ghost faults = { λ m. m.faults };

    fn read_at(&mut self, name: &str, at: u64, into: &mut [u8]) -> Result<usize, Failed>
        ensures fails { IsErr result
            ↔ (Contains self.old.fail (one_more self.old.made) ⊎ (look_up missing self.old.files name.now ≡ missing)) }
        ensures room { IfOk result (λ n. n ≤ length into.new) }
        ensures read { IfOk result (λ n. ReadsAt (look_up missing self.old.files name.now) at n into.new) }
        ensures ok { OnOk result (self.new ≡ record self.old { made = one_more self.old.made }) }
        ensures err { OnErr result
            (self.new ≡ record self.old { made = one_more self.old.made; faults = one_more self.old.faults }) }
        ensures counted { self.old.faults ≤ self.new.faults }
    {
        self.calls.begin()?;
        match find(self.files.as_slice(), name) {
            Some(bytes) => Ok(copy_at(bytes, at, into)),
            None => Err(self.calls.faults.add()),
        }
    }
}

/// Files in memory that never fail: a name that it was not given is an empty file.
#[derive(Drop)]
pub struct SureFiles {
    files: Vec<(String, Vec<u8>)>,
}

impl SureFiles {
    /// Takes over the files, of two equal names the first.
    pub fn make(files: Vec<(String, Vec<u8>)>) -> Self
        ensures contents { ⟦<SureFiles as Files>⟧.contents result ≡ look_up (file []) (named files.items) }
        ensures count { ⟦<SureFiles as Files>⟧.faults result ≡ 0 }
    {
        SureFiles { files }
    }
}

impl Files for SureFiles {
    ghost contents = { λ m. look_up (file []) (named m.files.items) };

    ghost faults = { λ _. 0 };

    fn read_at(&mut self, name: &str, at: u64, into: &mut [u8]) -> Result<usize, Failed> {
        let bytes = find(self.files.as_slice(), name).unwrap_or(&[]);
        Ok(copy_at(bytes, at, into))
    }
}

/// A sink in memory, with room that is reserved. A call takes so many bytes at most, and fails where
/// it has one of the numbers that the sink was given or where no room is left for a non-empty piece.
#[derive(Drop)]
pub struct MemSink {
    bytes: Vec<u8>,
    room: usize,
    piece: usize,
    calls: Calls,
    flushes: Flushes,
}

impl Model for MemSink {
    ghost Value = { SinkInMemory };

    ghost view = { λ m. record {
      bytes = m.bytes.items;
      room = m.room;
      piece = m.piece;
      fail = m.calls.fail.items;
      made = m.calls.made;
      faults = m.calls.faults;
      flushes = m.flushes.calls;
      unflushed = m.flushes.unflushed;
    } };

    ghost invariant = { λ m. (1 ≤ m.piece) × (vec_len m.bytes ≤ m.room) × (m.room ≤ vec_capacity m.bytes) };
}

impl MemSink {
    /// Reserves room for `room` bytes, of which a call takes at most `piece`. Writes and flushes are
    /// numbered together, from 1, and `fail` has the numbers of those that are to fail.
    pub fn make(
        alloc: Global,
        room: usize,
        piece: usize,
        fail: Vec<u64>,
    ) -> Result<Self, AllocError>
        requires { 1 ≤ piece }
        ensures { IfOk result (λ m. m ≡ record {
          bytes = [];
          room = room;
          piece = piece;
          fail = fail.items;
          made = 0;
          faults = 0;
          flushes = 0;
          unflushed = false;
        }) }
    {
        Ok(MemSink {
            bytes: Vec::with_capacity(alloc, room)?,
            room,
            piece,
            calls: Calls::none(fail),
            flushes: Flushes::none(),
        })
    }

    /// The bytes held.
    pub fn bytes(&self) -> &[u8]
        ensures { result.now ≡ self.now.bytes }
    {
        self.bytes.as_slice()
    }
}

impl Sink for MemSink {
    ghost held = { λ m. Some m.bytes };

    ghost faults = { λ m. m.faults };

    ghost flushes = { λ m. m.flushes };

    ghost unflushed = { λ m. m.unflushed };

    fn write(&mut self, piece: &[u8]) -> Result<usize, Failed>
        ensures fails { IsErr result
            ↔ (Contains self.old.fail (one_more self.old.made) ⊎ ((room_left self.old ≡ 0) × (0 < length piece.now))) }
        ensures takes { IfOk result (λ n. n ≡ taken self.old (length piece.now)) }
        ensures some { IfOk result (λ n. 0 < length piece.now → 0 < n) }
        ensures ok { IfOk result (λ n. self.new ≡ record self.old {
          bytes = self.old.bytes ++ take n piece.now;
          made = one_more self.old.made;
          unflushed = true;
        }) }
        ensures err { OnErr result
            (self.new ≡ record self.old {
              made = one_more self.old.made;
              faults = one_more self.old.faults;
              unflushed = true;
            }) }
        ensures counted { self.old.faults ≤ self.new.faults }
    {
        self.flushes.write();
        self.calls.begin()?;
        let room = self.room - self.bytes.len();
        if room == 0 && !piece.is_empty() {
            return Err(self.calls.faults.add());
        }
        let n = piece.len().min(self.piece).min(room);
        self.bytes.extend_from_slice(&piece[..n]).unwrap();
        Ok(n)
    }

    fn flush(&mut self) -> Result<(), Failed>
        ensures fails { IsErr result ↔ Contains self.old.fail (one_more self.old.made) }
        ensures ok { OnOk result (self.new ≡ record self.old {
          made = one_more self.old.made;
          flushes = one_more self.old.flushes;
          unflushed = false;
        }) }
        ensures err { OnErr result (self.new ≡ record self.old {
          made = one_more self.old.made;
          faults = one_more self.old.faults;
          flushes = one_more self.old.flushes;
          unflushed = false;
        }) }
        ensures counted { self.old.faults ≤ self.new.faults }
    {
        self.flushes.flush();
        self.calls.begin()
    }
}

/// A sink that drops what it is given, and never fails.
#[derive(Clone, Copy, Debug)]
pub struct SureSink {
    flushes: Flushes,
}

impl SureSink {
    /// A sink that was given nothing yet.
    pub fn make() -> Self
        ensures count { ⟦<SureSink as Sink>⟧.faults result ≡ 0 }
        ensures flushes { ⟦<SureSink as Sink>⟧.flushes result ≡ 0 }
        ensures unflushed { ⟦<SureSink as Sink>⟧.unflushed result ≡ false }
    {
        SureSink {
            flushes: Flushes::none(),
        }
    }
}

impl Sink for SureSink {
    ghost held = { λ _. None };

    ghost faults = { λ _. 0 };

    ghost flushes = { λ s. s.flushes.calls };

    ghost unflushed = { λ s. s.flushes.unflushed };

    fn write(&mut self, piece: &[u8]) -> Result<usize, Failed> {
        self.flushes.write();
        Ok(piece.len())
    }

    fn flush(&mut self) -> Result<(), Failed> {
        self.flushes.flush();
        Ok(())
    }
}

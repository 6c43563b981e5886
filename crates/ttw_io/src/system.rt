//! The files of the machine, and its standard output.

ghost use Rattle.std.specs.Prelude.{◌≡◌, ◌≤◌, length, false, None, IfOk};
ghost use Rattle.ttw_io.specs.Outside.{untold};

use crate::outside::{Failed, Faults, Files, Flushes, Sink};
use std::alloc::{AllocError, Global};
use std::io::{ErrorKind, Read, Seek, SeekFrom, Write};
use std::{fs, io, rt};

/// How many bytes a path has at most, as the system takes it.
const LONGEST_PATH: usize = 4095;

/// An open file, and the place at which its next read begins.
#[derive(Drop)]
struct Opened<F> {
    file: F,
    place: u64,
}

impl<F: Read + Seek> Opened<F> {
    fn read_at(&mut self, at: u64, into: &mut [u8]) -> io::Result<usize>
        ensures { IfOk result (λ n. n ≤ length into.new) }
    {
        if self.place != at {
            self.place = self.file.seek(SeekFrom::Start(at))?;
        }
        let n = self.file.read(into)?;
        self.place = self.place.saturating_add(n as u64);
        Ok(n)
    }
}

/// The files of the machine, by their paths. It tells nothing of what they have.
///
/// The file that was read last stays open, so a file that is read from its front on is opened once.
#[derive(Drop)]
pub struct DiskFiles<R: rt::Files + Drop> {
    rt: R,
    name: String,
    opened: Option<Opened<R::File>>,
    faults: Faults,
}

impl<R: rt::Files + Drop> DiskFiles<R> {
    /// Reserves room for a path.
    pub fn make(alloc: Global, rt: R) -> Result<Self, AllocError>
        ensures { IfOk result (λ d. ⟦<DiskFiles<R> as Files>⟧.faults d ≡ 0) }
    {
        Ok(DiskFiles {
            rt,
            name: String::with_capacity(alloc, LONGEST_PATH)?,
            opened: None,
            faults: Faults::none(),
        })
    }

    /// Opens the file, and keeps its name.
    fn open(&mut self, name: &str) -> io::Result<Opened<R::File>>
        ensures { self.new.faults ≡ self.old.faults }
    {
        if name.len() > self.name.capacity() {
            return Err(io::Error::from(ErrorKind::InvalidInput));
        }
        self.name.clear();
        self.name.push_str(name)?;
        Ok(Opened {
            file: fs::open(&self.rt, name)?,
            place: 0,
        })
    }

    /// Reads from the open file, if it has that name. After an error no file is open.
    fn read(&mut self, name: &str, at: u64, into: &mut [u8]) -> io::Result<usize>
        ensures room { IfOk result (λ n. n ≤ length into.new) }
        ensures count { self.new.faults ≡ self.old.faults }
    {
        let mut opened = match self.opened.take() {
            Some(opened) if self.name.as_str() == name => opened,
            _ => self.open(name)?,
        };
        let n = opened.read_at(at, into)?;
        self.opened = Some(opened);
        Ok(n)
    }
}

impl<R: rt::Files + Drop> Files for DiskFiles<R> {
    ghost contents = { λ _ _. untold };

    ghost faults = { λ d. d.faults };

    fn read_at(&mut self, name: &str, at: u64, into: &mut [u8]) -> Result<usize, Failed> {
        match self.read(name, at, into) {
            Ok(n) => Ok(n),
            Err(_) => Err(self.faults.add()),
        }
    }
}

/// Standard output. It tells nothing of what was written.
#[derive(Drop)]
pub struct StdSink<R> {
    rt: R,
    faults: Faults,
    flushes: Flushes,
}

impl<R: Print> StdSink<R> {
    /// Writes to the runtime's standard output.
    pub fn make(rt: R) -> Self
        ensures count { ⟦<StdSink<R> as Sink>⟧.faults result ≡ 0 }
        ensures flushes { ⟦<StdSink<R> as Sink>⟧.flushes result ≡ 0 }
        ensures unflushed { ⟦<StdSink<R> as Sink>⟧.unflushed result ≡ false }
    {
        StdSink {
            rt,
            faults: Faults::none(),
            flushes: Flushes::none(),
        }
    }
}

impl<R: Print> Sink for StdSink<R> {
    ghost held = { λ _. None };

    ghost faults = { λ s. s.faults };

    ghost flushes = { λ s. s.flushes.calls };

    ghost unflushed = { λ s. s.flushes.unflushed };

    fn write(&mut self, piece: &[u8]) -> Result<usize, Failed> {
        self.flushes.write();
        match self.rt.write_some(piece) {
            Ok(n) if n > 0 || piece.is_empty() => Ok(n),
            _ => Err(self.faults.add()),
        }
    }

    fn flush(&mut self) -> Result<(), Failed> {
        self.flushes.flush();
        if io::writer(&self.rt).flush().is_err() {
            return Err(self.faults.add());
        }
        Ok(())
    }
}

//! The traits of files and sinks, and what is said of every implementation.
//!
//! Each counts its faults. The count begins at 0, never falls, and rises with each failure until it
//! stands at the greatest `u64`. So a caller whose count did not rise met no failure.

ghost use Rattle.std.specs.Prelude.{◌≡◌, ℕ, ◌≤◌, ◌<◌, List, length, take, Bool, true, false, Option, IfOk, OnErr};
ghost use Rattle.std.specs.Io.KnownBytes.{append_known};
ghost use Rattle.ttw_io.specs.Outside.{Told, Rose, ReadsAt, one_more};

use std::marker::Model;

/// A read, a write or a flush that failed. It was counted.
#[derive(Clone, Copy, Debug, PartialEq, Eq)]
pub struct Failed;

/// A count of faults.
#[derive(Drop)]
pub(crate) struct Faults {
    count: u64,
}

impl Model for Faults {
    ghost Value = { ℕ };

    ghost view = { λ f. f.count };
}

impl Faults {
    pub(crate) fn none() -> Self
        ensures { result ≡ 0 }
    {
        Faults { count: 0 }
    }

    /// Counts one more, and gives the failure to answer.
    pub(crate) fn add(&mut self) -> Failed
        ensures one_more { self.new ≡ one_more self.old }
        ensures counted { self.old ≤ self.new }
    {
        self.count = self.count.saturating_add(1);
        Failed
    }
}

/// A count of flushes, and whether something was written after the last one.
#[derive(Clone, Copy, Debug, Drop)]
pub(crate) struct Flushes {
    pub(crate) calls: u64,
    pub(crate) unflushed: bool,
}

impl Flushes {
    pub(crate) fn none() -> Self
        ensures { result ≡ record { calls = 0; unflushed = false } }
    {
        Flushes {
            calls: 0,
            unflushed: false,
        }
    }

    /// Keeps in mind that something may have been written.
    pub(crate) fn write(&mut self)
        ensures { self.new ≡ record self.old { unflushed = true } }
    {
        self.unflushed = true;
    }

    /// Counts one more.
    pub(crate) fn flush(&mut self)
        ensures { self.new ≡ record { calls = one_more self.old.calls; unflushed = false } }
    {
        self.calls = self.calls.saturating_add(1);
        self.unflushed = false;
    }
}

/// Files that are read by name.
pub trait Files {
    // What is told of the file of each name.
    ghost contents: { Self → List ℕ → Told };

    // How many faults were counted.
    ghost faults: { Self → ℕ };

    /// Reads bytes of the file from place `at` on to the front of `into`, and gives their number.
    ///
    /// A non-empty `into` gets 0 bytes at the file's end alone. A missing file is a failure. After a
    /// failure nothing is said of what `into` has.
    fn read_at(&mut self, name: &str, at: u64, into: &mut [u8]) -> Result<usize, Failed>
        ensures room { IfOk result (λ n. n ≤ length into.new) }
        ensures read { IfOk result (λ n. ReadsAt (contents self.old name.now) at n into.new) }
        ensures kept { contents self.new ≡ contents self.old }
        ensures counted { faults self.old ≤ faults self.new }
        ensures failed { OnErr result (Rose (faults self.old) (faults self.new)) };
}

/// Something that takes bytes in order.
pub trait Sink {
    // The bytes held, where they are told.
    ghost held: { Self → Option (List ℕ) };

    // How many faults were counted.
    ghost faults: { Self → ℕ };

    // How often it was flushed. The count stands still at the greatest `u64`.
    ghost flushes: { Self → ℕ };

    // Whether `write` was called after the last flush.
    ghost unflushed: { Self → Bool };

    /// Adds a prefix of the piece, and gives its length: at least 1 for a non-empty piece.
    ///
    /// A failure adds nothing.
    fn write(&mut self, piece: &[u8]) -> Result<usize, Failed>
        ensures room { IfOk result (λ n. n ≤ length piece.now) }
        ensures some { IfOk result (λ n. 0 < length piece.now → 0 < n) }
        ensures added { IfOk result (λ n. held self.new ≡ append_known (held self.old) (take n piece.now)) }
        ensures kept { OnErr result (held self.new ≡ held self.old) }
        ensures counted { faults self.old ≤ faults self.new }
        ensures failed { OnErr result (Rose (faults self.old) (faults self.new)) }
        ensures same_flushes { flushes self.new ≡ flushes self.old }
        ensures unflushed { unflushed self.new ≡ true };

    /// Hands on what was written so far, and adds nothing. A call that fails is counted as a flush too.
    fn flush(&mut self) -> Result<(), Failed>
        ensures kept { held self.new ≡ held self.old }
        ensures counted { faults self.old ≤ faults self.new }
        ensures failed { OnErr result (Rose (faults self.old) (faults self.new)) }
        ensures one_flush { flushes self.new ≡ one_more (flushes self.old) }
        ensures flushed { unflushed self.new ≡ false };
}

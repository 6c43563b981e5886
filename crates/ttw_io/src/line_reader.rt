//! Reading a file line by line, in room that does not depend on the file.

ghost use Rattle.std.specs.Prelude.{◌≡◌, ◌==◌, ◌<◌, ◌≤◌, [], Some, None, Err, false, length, position, IfOk, IfErr, IfSome, OnOk, OnErr};
ghost use Rattle.std.specs.Borrow.{sem};
ghost use Rattle.std.specs.Io.BufRead.{Rests};
ghost use Rattle.ttw_io.specs.contracts.line_reader.LineReader.{the_row};
ghost use Rattle.ttw_io.specs.LineReading.{Answers, EndsSearch, IsFirst, IsOf, NextLine, ReadsOn, first_feed, handed_out, left_to_read};
ghost use Rattle.ttw_io.specs.Outside.{Rose};

use crate::outside::{Failed, Files};
use memchr::memchr;
use std::alloc::{AllocError, Global};
use std::marker::Model;

/// How many bytes are read ahead of a line at most.
const PIECE: usize = 65536;

/// Why a line was not handed out.
#[derive(Clone, Copy, Debug, PartialEq, Eq)]
pub enum LineEnd {
    /// A read failed.
    Failed,
    /// The line is longer than the limit.
    Long,
}

impl From<Failed> for LineEnd {
    ghost use Rattle.ttw_io.specs.declared.line_reader.LineEnd.TheVariants.{Failed};

    ghost from_gives = { λ _ e. e ≡ Failed };

    fn from(_: Failed) -> Self {
        LineEnd::Failed
    }
}

/// Where a text first has a line feed.
fn place_of_feed(text: &[u8]) -> Option<usize>
    ensures { result ≡ position (λ b. b == 10) text.now }
{
    memchr(b'\n', text)
}

/// Hands out the lines of a file in order. All its memory is taken when it is made.
///
/// The bytes of `buffer` from `start` to `next` are the line that was handed out last, and those
/// from `next` to `end` were read ahead of it.
#[derive(Drop)]
pub struct LineReader {
    most: usize,
    buffer: Vec<u8>,
    start: usize,
    next: usize,
    end: usize,
    handed: u64,
    ended: bool,
    refusal: Option<LineEnd>,
}

impl Model for LineReader {
    ghost use Rattle.std.specs.Prelude.{◌-◌, ◌<◌, ◌≤◌, take, drop, vec_len};
    ghost use Rattle.ttw_io.specs.LineReading.{ReadLines};

    ghost Value = { ReadLines };

    ghost view = { λ r. record {
      most = r.most;
      line = take (r.next - r.start) (drop r.start r.buffer.items);
      handed = r.handed;
      ahead = take (r.end - r.next) (drop r.next r.buffer.items);
      ended = r.ended;
      refusal = r.refusal;
    } };

    ghost invariant = { λ r. (r.start ≤ r.next) × (r.next ≤ r.end) × (r.end ≤ vec_len r.buffer) × (r.most < vec_len r.buffer) };
}

impl LineReader {
    /// A reader of lines of at most `most` bytes each, without their line feeds.
    pub fn make(alloc: Global, most: usize) -> Result<Self, AllocError>
        ensures { IfOk result (λ r. r ≡ record {
          most = most;
          line = [];
          handed = 0;
          ahead = [];
          ended = false;
          refusal = None;
        }) }
    {
        Ok(LineReader {
            most,
            buffer: vec![in alloc; 0; most.saturating_add(PIECE)]?,
            start: 0,
            next: 0,
            end: 0,
            handed: 0,
            ended: false,
            refusal: None,
        })
    }

    /// The line that was handed out last, with its line feed where it has one.
    pub fn line(&self) -> &[u8]
        ensures { result.now ≡ self.now.line }
    {
        &self.buffer[self.start..self.next]
    }

    /// How many bytes of the file were handed out, with that line.
    pub fn handed(&self) -> u64
        ensures { result ≡ self.now.handed }
    {
        self.handed
    }

    /// How many bytes were read ahead.
    fn ahead_len(&self) -> usize
        ensures { result ≡ length self.now.ahead }
    {
        self.end - self.next
    }

    /// How many of the bytes that were read ahead stand before the first line feed.
    fn text_len(&self) -> usize
        ensures { result ≡ first_feed self.now.ahead }
    {
        let ahead = &self.buffer[self.next..self.end];
        place_of_feed(ahead).unwrap_or(ahead.len())
    }

    /// Reads more of the file, behind the bytes that were read ahead. The line is let go.
    fn fill<F: Files>(&mut self, files: &mut F, name: &str) -> Result<(), Failed>
        requires place { self.old.handed ≤ 9000000000000000000 }
        requires of_file { IsOf (F.contents files.old name.now) self.old }
        requires room { length self.old.ahead ≤ self.old.most }
        requires not_ended { self.old.ended ≡ false }

        ensures on { ReadsOn (F.contents files.old name.now) self.old self.new }
        ensures more { OnOk result
            (left_to_read self.new < left_to_read self.old) }
        ensures failed { OnErr result (Rose (F.faults files.old) (F.faults files.new)) }
        ensures same { OnErr result (self.new ≡ record self.old { line = [] }) }

        ensures kept { F.contents files.new ≡ F.contents files.old }
        ensures counted { F.faults files.old ≤ F.faults files.new }
    {
        self.buffer.copy_within(self.next..self.end, 0);
        self.end -= self.next;
        self.next = 0;
        self.start = 0;
        let place = self.handed + self.end as u64;
        let n = files.read_at(name, place, &mut self.buffer[self.end..])?;
        self.end += n;
        self.ended = n == 0;
        Ok(())
    }

    /// How long the next line is, with its line feed where it has one: 0 at the file's end alone.
    fn find<F: Files>(&mut self, files: &mut F, name: &str) -> Result<usize, LineEnd>
        requires place { self.old.handed ≤ 9000000000000000000 }
        requires of_file { IsOf (F.contents files.old name.now) self.old }

        ensures on { ReadsOn (F.contents files.old name.now) self.old self.new }
        ensures ok { IfOk result (λ len. IsFirst self.new len) }
        ensures err { IfErr result
            (λ e. EndsSearch self.new (F.faults files.old) (F.faults files.new) e) }

        ensures kept { F.contents files.new ≡ F.contents files.old }
        ensures counted { F.faults files.old ≤ F.faults files.new }
    {
        loop {
            let text = self.text_len();
            if text > self.most {
                return Err(LineEnd::Long);
            }
            if text < self.ahead_len() {
                return Ok(text + 1);
            }
            if self.ended {
                return Ok(text);
            }
            self.fill(files, name)?;
        }
    }

    /// Hands out so many of the bytes that were read ahead.
    fn hand_out(&mut self, len: usize)
        requires place { self.old.handed ≤ 9000000000000000000 }
        requires within { len ≤ length self.old.ahead }
        ensures { self.new ≡ handed_out self.old len }
    {
        self.start = self.next;
        self.next += len;
        self.handed += len as u64;
    }

    /// Goes to the next line: whether there is one. After a refusal every later call answers that
    /// refusal again.
    pub fn advance<F: Files>(&mut self, files: &mut F, name: &str) -> Result<bool, LineEnd>
        requires place { self.old.handed ≤ 9000000000000000000 }
        requires of_file { IsOf (F.contents files.old name.now) self.old }

        ensures answer { self.old.refusal ≡ None → Answers (F.contents files.old name.now)
            self.old self.new (F.faults files.old) (F.faults files.new) result }
        ensures again { IfSome self.old.refusal (λ e. (result ≡ Err e) × (self.new ≡ self.old)) }
        ensures ok { OnOk result (self.new.refusal ≡ None) }
        ensures err { IfErr result (λ e. self.new.refusal ≡ Some e) }

        ensures most { self.new.most ≡ self.old.most }
        ensures of_file { IsOf (F.contents files.new name.now) self.new }
        ensures kept { F.contents files.new ≡ F.contents files.old }
        ensures counted { F.faults files.old ≤ F.faults files.new }
    {
        if let Some(end) = self.refusal {
            return Err(end);
        }
        match self.find(files, name) {
            Ok(len) => {
                self.hand_out(len);
                Ok(len > 0)
            }
            Err(end) => {
                self.refusal = Some(end);
                Err(end)
            }
        }
    }

    /// Goes to the next line and hands it out, with its line feed where it has one. `None` stands
    /// for the end of the file. After a refusal every later call answers that refusal again.
    pub fn next_line<F: Files>(
        &mut self,
        files: &mut F,
        name: &str,
    ) -> Result<Option<&[u8]>, LineEnd>
        requires place { self.old.handed ≤ 9000000000000000000 }
        requires of_file { IsOf (F.contents files.old name.now) self.old }

        ensures* after { sem 𝓛 (Rests the_row self.entry (λ new.
            NextLine (F.contents files.old name.now) self.old new
            (F.faults files.old) (F.faults files.new) result)) }
        ensures kept { F.contents files.new ≡ F.contents files.old }
        ensures counted { F.faults files.old ≤ F.faults files.new }
    {
        if !self.advance(files, name)? {
            return Ok(None);
        }
        Ok(Some(self.line()))
    }
}

//! A text that is built.

ghost use Rattle.std.specs.Prelude.{◌≡◌, ◌+◌, ◌<◌, ◌≤◌, [], ◌∷◌, ◌++◌, length, drop, OnOk, OnErr};
ghost use Rattle.ttw_text.specs.Numbers.{spelled, signed_spelled};

use std::alloc::{AllocError, Global};
use std::marker::Model;

/// The room for the digits of a number of 64 bits.
const ROOM: usize = 20;

/// The room for a minus and the digits of a number of 128 bits.
const WIDE_ROOM: usize = 40;

/// A text that grows at its end. Contracts see it as the list of its bytes.
#[derive(Drop)]
pub struct Out {
    text: Vec<u8>,
}

impl Model for Out {
    ghost use Rattle.std.specs.Prelude.{ℕ, List};

    ghost Value = { List ℕ };

    ghost view = { λ out. out.text.items };
}

/// Writes the digits of `n` before `end`, and answers where they begin.
fn write_digits(n: u64, buffer: &mut [u8], end: usize) -> usize
    requires room { length (spelled n) ≤ end }
    requires within { end ≤ length buffer.old }
    ensures start { result + length (spelled n) ≡ end }
    ensures written { drop result buffer.new ≡ spelled n ++ drop end buffer.old }
{
    itoa::write_digits(n, buffer, end)
}

/// The same for a number of 128 bits: the digits past 64 bits come first.
fn write_wide_digits(n: u128, buffer: &mut [u8], end: usize) -> usize
    requires room { length (spelled n) ≤ end }
    requires within { end ≤ length buffer.old }
    ensures start { result + length (spelled n) ≡ end }
    ensures written { drop result buffer.new ≡ spelled n ++ drop end buffer.old }
{
    let mut left = n;
    let mut at = end;
    while left > u128::from(u64::MAX) {
        at -= 1;
        buffer[at] = b'0' + (left % 10) as u8;
        left /= 10;
    }
    write_digits(left as u64, buffer, at)
}

/// Writes a signed number at the end of `buffer`, and answers where it begins.
fn write_signed(n: i128, buffer: &mut [u8; WIDE_ROOM]) -> usize
    ensures within { result ≤ 40 }
    ensures written { drop result buffer.new ≡ signed_spelled n }
{
    let start = write_wide_digits(n.unsigned_abs(), buffer, WIDE_ROOM);
    if n >= 0 {
        return start;
    }
    buffer[start - 1] = b'-';
    start - 1
}

impl Out {
    /// An empty text, which has taken no memory yet.
    pub fn make(alloc: Global) -> Out
        ensures { result ≡ [] }
    {
        Out {
            text: Vec::new(alloc),
        }
    }

    /// Adds bytes. After an `Err` the text is unchanged, here and in the calls below.
    pub fn put(&mut self, text: &[u8]) -> Result<(), AllocError>
        ensures ok { OnOk result (self.new ≡ self.old ++ text.now) }
        ensures err { OnErr result (self.new ≡ self.old) }
    {
        self.text.extend_from_slice(text)
    }

    /// Adds the spelling of a number.
    pub fn number(&mut self, n: u64) -> Result<(), AllocError>
        ensures ok { OnOk result (self.new ≡ self.old ++ spelled n) }
        ensures err { OnErr result (self.new ≡ self.old) }
    {
        let mut buffer = [0; ROOM];
        let start = write_digits(n, &mut buffer, ROOM);
        self.put(&buffer[start..])
    }

    /// Adds the spelling of a signed number: decimal digits, with `-` before them below 0.
    pub fn signed(&mut self, n: i128) -> Result<(), AllocError>
        ensures ok { OnOk result (self.new ≡ self.old ++ signed_spelled n) }
        ensures err { OnErr result (self.new ≡ self.old) }
    {
        let mut buffer = [0; WIDE_ROOM];
        let start = write_signed(n, &mut buffer);
        self.put(&buffer[start..])
    }

    /// Adds a line feed.
    pub fn line_end(&mut self) -> Result<(), AllocError>
        ensures ok { OnOk result (self.new ≡ self.old ++ 10 ∷ []) }
        ensures err { OnErr result (self.new ≡ self.old) }
    {
        self.put(b"\n")
    }

    /// The text so far.
    pub fn bytes(&self) -> &[u8]
        ensures { result.now ≡ self.now }
    {
        self.text.as_slice()
    }
}

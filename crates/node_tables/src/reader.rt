//! The fields of an image, read one after the other.

ghost use Rattle.std.specs.Prelude.{◌≡◌, ◌==◌, ◌&&◌, int_le, length, Ok, Err, IfOk, IfErr};
ghost use Rattle.node_tables.specs.Reading as reads;

use crate::fault::ImageFault;
use std::marker::Model;

/// An image, and the place of the next field. Contracts see that place and the bytes from there.
#[derive(Drop)]
pub struct Reader<'a> {
    image: &'a [u8],
    at: usize,
}

impl<'a> Model for Reader<'a> {
    ghost use Rattle.std.specs.Prelude.{◌≤◌, length, drop};
    ghost use Rattle.node_tables.specs.Left.{Left};

    ghost Value = { Left };

    ghost view = { λ r. record { at = r.at; bytes = drop r.at r.image.now } };

    ghost invariant = { λ r. r.at ≤ length r.image.now };
}

/// Whether a number lies in a range.
pub(crate) fn is_between(low: i64, value: i64, high: i64) -> bool
    ensures { result ≡ (int_le low value && int_le value high) }
{
    low <= value && value <= high
}

impl<'a> Reader<'a> {
    /// A reader at the first field.
    pub fn new(image: &'a [u8]) -> Self
        ensures { result ≡ record { at = 0; bytes = image.now } }
    {
        Reader { image, at: 0 }
    }

    /// Whether nothing is left.
    pub fn is_at_end(&self) -> bool
        ensures { result ≡ (length self.now.bytes == 0) }
    {
        self.at == self.image.len()
    }

    /// A field of one byte from `low` to `high`.
    pub fn byte(&mut self, low: u8, high: u8) -> Result<u8, ImageFault>
        ensures ok { IfOk result (λ n. reads.byte low high self.old ≡ Ok (n, self.new)) }
        ensures err { IfErr result (λ fault. reads.byte low high self.old ≡ Err fault) }
    {
        let at = self.at;
        let Some(field) = self.image[at..].first_chunk::<1>() else {
            return Err(ImageFault::Short);
        };
        let [value] = *field;
        if value < low || high < value {
            return Err(ImageFault::Range(at));
        }
        self.at = at + 1;
        Ok(value)
    }

    /// A field of two bytes from `low` to `high`.
    pub fn short(&mut self, low: u16, high: u16) -> Result<u16, ImageFault>
        ensures ok { IfOk result (λ n. reads.short low high self.old ≡ Ok (n, self.new)) }
        ensures err { IfErr result (λ fault. reads.short low high self.old ≡ Err fault) }
    {
        let at = self.at;
        let Some(field) = self.image[at..].first_chunk::<2>() else {
            return Err(ImageFault::Short);
        };
        let value = u16::from_be_bytes(*field);
        if value < low || high < value {
            return Err(ImageFault::Range(at));
        }
        self.at = at + 2;
        Ok(value)
    }

    /// A field of eight bytes from `low` to `high`, in two's complement.
    pub fn long(&mut self, low: i64, high: i64) -> Result<i64, ImageFault>
        ensures ok { IfOk result (λ n. reads.long low high self.old ≡ Ok (n, self.new)) }
        ensures err { IfErr result (λ fault. reads.long low high self.old ≡ Err fault) }
    {
        let at = self.at;
        let Some(field) = self.image[at..].first_chunk::<8>() else {
            return Err(ImageFault::Short);
        };
        let value = i64::from_be_bytes(*field);
        if !is_between(low, value, high) {
            return Err(ImageFault::Range(at));
        }
        self.at = at + 8;
        Ok(value)
    }
}

//! Reading a file whole.

ghost use Rattle.std.specs.Prelude.{◌≡◌, ◌≤◌, ◌<◌, ◌^◌, length, IfOk};
ghost use Rattle.ttw_io.specs.Reading.{EndsReading};

use crate::outside::{Failed, Files};
use std::alloc::{AllocError, Global};

/// How many bytes one read asks for at most.
const PIECE: usize = 16384;

/// Why a file was not read whole.
#[derive(Debug, Drop)]
pub enum ReadEnd {
    /// A read failed.
    Failed,
    /// The file is longer than the limit. These are its first bytes, one more than the limit.
    Long(Vec<u8>),
    /// Memory was refused.
    Memory,
}

impl From<Failed> for ReadEnd {
    ghost use Rattle.ttw_io.specs.declared.reading.ReadEnd.TheVariants.{Failed};

    ghost from_gives = { λ _ e. e ≡ Failed };

    fn from(_: Failed) -> Self {
        ReadEnd::Failed
    }
}

impl From<AllocError> for ReadEnd {
    ghost use Rattle.ttw_io.specs.declared.reading.ReadEnd.TheVariants.{Memory};

    ghost from_gives = { λ _ e. e ≡ Memory };

    fn from(_: AllocError) -> Self {
        ReadEnd::Memory
    }
}

/// Reads the file whole, if it has at most `most` bytes.
pub fn read_all<F: Files>(
    alloc: Global,
    files: &mut F,
    name: &str,
    most: u64,
) -> Result<Vec<u8>, ReadEnd>
    requires { most < 2 ^ 63 }
    ensures end { EndsReading (F.contents files.old name.now) most (F.faults files.old) (F.faults files.new) result }
    ensures within { IfOk result (λ bytes. length bytes.items ≤ most) }
    ensures kept { F.contents files.new ≡ F.contents files.old }
    ensures counted { F.faults files.old ≤ F.faults files.new }
{
    let mut bytes = Vec::new(alloc);
    let mut piece = [0; PIECE];
    while (bytes.len() as u64) <= most {
        let at = bytes.len() as u64;
        let room = (most + 1 - at).min(PIECE as u64) as usize;
        let n = files.read_at(name, at, &mut piece[..room])?;
        if n == 0 {
            return Ok(bytes);
        }
        bytes.extend_from_slice(&piece[..n])?;
    }
    Err(ReadEnd::Long(bytes))
}

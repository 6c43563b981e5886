//! The bytes of a field.

ghost use Rattle.std.specs.Prelude.{◌≡◌, [], ◌∷◌, ◌++◌, OnOk};
ghost use Rattle.node_tables.specs.Fields.{short_bytes, long_bytes};

use byteorder::{BigEndian, ByteOrder};
use std::alloc::AllocError;
use ttw_text::Out;

/// Adds a field of one byte.
pub fn put_byte(out: &mut Out, n: u8) -> Result<(), AllocError>
    ensures { OnOk result (out.new ≡ out.old ++ n ∷ []) }
{
    out.put(&[n])
}

/// Adds a field of two bytes.
#[tactic(auto, unfolding(crate::specs::Fields::short_bytes))]
pub fn put_short(out: &mut Out, n: u16) -> Result<(), AllocError>
    ensures { OnOk result (out.new ≡ out.old ++ short_bytes n) }
{
    let mut bytes = [0; 2];
    BigEndian::write_u16(&mut bytes, n);
    out.put(&bytes)
}

/// Adds a field of eight bytes.
#[tactic(auto, unfolding(crate::specs::Fields::long_bytes))]
pub fn put_long(out: &mut Out, n: i64) -> Result<(), AllocError>
    ensures { OnOk result (out.new ≡ out.old ++ long_bytes n) }
{
    let mut bytes = [0; 8];
    BigEndian::write_i64(&mut bytes, n);
    out.put(&bytes)
}

//! The versions of an image.

ghost use Rattle.std.specs.Prelude.{◌≡◌};
ghost use Rattle.node_tables.specs.Reading.{version_of};

/// How an image is written: its first byte says which.
#[derive(Clone, Copy, Drop)]
pub enum Version {
    /// Each slot carries a first copy, and does not say so.
    First,
    /// Each slot says which copy it carries.
    Second,
}

/// The version with this number, 1 or 2.
pub fn version_of(number: u8) -> Version
    ensures { result ≡ version_of number }
{
    if number == 1 {
        Version::First
    } else {
        Version::Second
    }
}

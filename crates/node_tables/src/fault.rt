//! What is wrong with an image.

use thiserror::Error;

/// Why bytes are no image. The first fault in the order of the bytes counts.
#[derive(Debug, Drop, Error)]
pub enum ImageFault {
    /// The bytes end before the last field does.
    #[error("the image ends within a field")]
    Short,
    /// The field that begins at this byte, from 0, is out of its range.
    #[error("the field at byte {0} is out of its range")]
    Range(usize),
    /// Bytes follow the last field.
    #[error("bytes follow the image")]
    Trailing,
    #[error("out of memory")]
    Memory,
}

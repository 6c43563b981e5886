//! Texts of their own, and lists of which a front is left out.

ghost use Rattle.std.specs.Prelude.{◌≡◌, IfOk, drop};

use std::alloc::{AllocError, Global};
use ttw_text::Out;

/// A text with these bytes.
pub(crate) fn text(alloc: Global, bytes: &[u8]) -> Result<Out, AllocError>
    ensures { IfOk result (λ out. out ≡ bytes.now) }
{
    let mut out = Out::make(alloc);
    out.put(bytes)?;
    Ok(out)
}

/// What is left of the items behind the first ones, of which there are so many.
pub(crate) fn behind<T>(items: &[T], count: usize) -> &[T]
    ensures { result.now ≡ drop count items.now }
{
    &items[count.min(items.len())..]
}

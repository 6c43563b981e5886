//! A search for a byte.

ghost use Rattle.std.specs.Prelude.{◌≡◌, ◌==◌, position};

/// Where a text first has this byte.
pub fn place_of(text: &[u8], byte: u8) -> Option<usize>
    ensures { result ≡ position (λ b. b == byte) text.now }
{
    text.iter().position(|b| *b == byte)
}

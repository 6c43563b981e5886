//! Names.

ghost use Rattle.std.specs.Prelude.{◌≡◌};
ghost use Rattle.std.specs.List.{list_all};
ghost use Rattle.ttw_text.specs.Names as names;

fn is_name_byte(b: u8) -> bool
    ensures { result ≡ names.is_name_byte b }
{
    matches!(b, b'a'..=b'z' | b'0'..=b'9' | b'_')
}

fn has_name_bytes(text: &[u8]) -> bool
    ensures { result ≡ list_all names.is_name_byte text.now }
{
    text.iter().all(|b| is_name_byte(*b))
}

/// Whether a text is a name: 1 to 32 of `a` to `z`, `0` to `9` and `_`.
pub fn is_name(text: &[u8]) -> bool
    ensures { result ≡ names.is_name text.now }
{
    !text.is_empty() && text.len() <= 32 && has_name_bytes(text)
}

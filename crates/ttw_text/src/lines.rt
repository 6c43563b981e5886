//! The lines of a text.

ghost use Rattle.std.specs.Prelude.{◌≡◌, ◌+◌, ◌<◌, ◌≤◌, ◌↔◌, ◌∷◌, length, take, drop, IsNone, IfSome};
ghost use Rattle.std.specs.Option.{option_copied};
ghost use Rattle.ttw_text.specs.Lines.{lines, without_feed};

use crate::bytes::place_of;

/// How long the first line is, with its line feed where it has one.
fn line_len(text: &[u8]) -> usize
    requires { 0 < length text.now }
    ensures some { 0 < result }
    ensures within { result ≤ length text.now }
    ensures line { lines text.now ≡ take result text.now ∷ lines (drop result text.now) }
{
    match place_of(text, b'\n') {
        Some(at) => at + 1,
        None => text.len(),
    }
}

/// The line that begins at `from`, with its line feed where it has one, and where the next one
/// begins. `None` stands for the end of the text.
pub fn cut(text: &[u8], from: usize) -> Option<(&[u8], usize)>
    requires { from ≤ length text.now }
    ensures end { IsNone result ↔ (from ≡ length text.now) }
    ensures line { IfSome result (λ found.
        lines (drop from text.now) ≡ found.0.now ∷ lines (drop found.1 text.now)) }
    ensures next { IfSome result (λ found. found.1 ≡ from + length found.0.now) }
    ensures ahead { IfSome result (λ found. from < found.1) }
    ensures within { IfSome result (λ found. found.1 ≤ length text.now) }
{
    let rest = &text[from..];
    if rest.is_empty() {
        return None;
    }
    let len = line_len(rest);
    Some((&rest[..len], from + len))
}

/// A line without its line feed, or `None` where it does not end with one.
pub fn without_feed(line: &[u8]) -> Option<&[u8]>
    ensures { option_copied result ≡ without_feed line.now }
{
    match line {
        [text @ .., b'\n'] => Some(text),
        _ => None,
    }
}

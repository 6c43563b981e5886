//! Numbers that are read.

ghost use Rattle.std.specs.Prelude.{◌≡◌, ◌^◌, ◌<◌, ◌≤◌, ◌↔◌, ℕ, Some, None, ◌&&◌, nat_lt, if◌then◌else◌, IfSome, IsTrue, length, slice_index, take};
ghost use Rattle.std.specs.Option.{option_copied};
ghost use Rattle.std.specs.Str.{all_ascii_digits};
ghost use Rattle.std.specs.Str.Parse.{digits_value};
ghost use Rattle.ttw_text.specs.Numbers.{number_of, number_up_to, spelled};
ghost use Rattle.ttw_text.specs.Words.{Fronts, parts_left};

/// A number to which one more digit is added without a test.
const MOST_BEFORE_A_DIGIT: u64 = 1_000_000_000_000_000_000;

/// The number that a text of digits writes, where it is below 2 ^ 64.
fn value_of(digits: &[u8]) -> Option<u64>
    ensures { result ≡ (if all_ascii_digits digits.now && nat_lt (digits_value 10 digits.now) (2 ^ 64)
        then Some (digits_value 10 digits.now) else None) }
{
    let mut value: u64 = 0;
    for digit in digits {
        if !digit.is_ascii_digit() {
            return None;
        }
        value = value
            .checked_mul(10)?
            .checked_add(u64::from(*digit - b'0'))?;
    }
    Some(value)
}

/// The digits at the front of a line up to its first space, or its end: their number and how many
/// they are. `None` where another byte stands there, or the number has more than 19 digits.
fn front_digits(line: &[u8]) -> Option<(u64, usize)>
    ensures value { IfSome result (λ f. f.0 ≡ digits_value 10 (take f.1 line.now)) }
    ensures digits { IfSome result (λ f. IsTrue (all_ascii_digits (take f.1 line.now))) }
    ensures within { IfSome result (λ f. f.1 ≤ length line.now) }
    ensures end { IfSome result (λ f. f.1 < length line.now → slice_index line.now f.1 ≡ 32) }
{
    let mut value: u64 = 0;
    let mut at = 0;
    while at < line.len() {
        let byte = line[at];
        if byte == b' ' {
            return Some((value, at));
        }
        if !byte.is_ascii_digit() {
            return None;
        }
        if value > MOST_BEFORE_A_DIGIT {
            return None;
        }
        value = value * 10 + u64::from(byte - b'0');
        at += 1;
    }
    Some((value, at))
}

/// The number that the first part of a line spells, and what stands behind its space. `None` says
/// nothing of the line.
pub(crate) fn front_number(line: &[u8]) -> Option<(u64, Option<&[u8]>)>
    ensures { IfSome result (λ f. Fronts line.now f.0 (parts_left (option_copied f.1))) }
{
    let (value, at) = front_digits(line)?;
    if at == 0 {
        return None;
    }
    if at > 1 && line[0] == b'0' {
        return None;
    }
    if at == line.len() {
        return Some((value, None));
    }
    Some((value, Some(&line[at + 1..])))
}

/// The number that a text spells. Each number has one spelling: decimal digits, with no leading
/// zero but `0` itself.
pub fn read_u64(text: &[u8]) -> Option<u64>
    ensures value { result ≡ number_of text.now }
    ensures spelling { (n : ℕ) → n < 2 ^ 64 → ((result ≡ Some n) ↔ (text.now ≡ spelled n)) }
{
    match text {
        [] | [b'0', _, ..] => None,
        _ => value_of(text),
    }
}

/// The number that a text spells, where it is at most `most`.
pub fn read_up_to(text: &[u8], most: u64) -> Option<u64>
    ensures { result ≡ number_up_to most text.now }
{
    read_u64(text).filter(|n| *n <= most)
}

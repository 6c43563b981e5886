//! The forms of lines.

ghost use Rattle.std.specs.Prelude.{◌≡◌, option_map};
ghost use Rattle.replay_script.specs.Form as forms;
ghost use Rattle.replay_script.specs.Meaning.{meaning};

use ttw_text::{Parts, read_up_to, words};

/// The most Advances of a `go` line.
const MOST_STEPS: u64 = 1_000_000;

/// The most bytes of a line, without its line feed.
const LONGEST: usize = 4096;

/// What a line asks for, with the names as they stand.
#[derive(Drop)]
pub(crate) enum LineForm<'a> {
    /// Nothing: the line is passed over.
    Passed,
    /// A number of Advances.
    Go(u64),
    /// Advances until a beacon.
    UntilBeacon,
    /// An Advance that the named nodes lose. The parts are names, one or more.
    Lose(Parts<'a>),
    /// A mode.
    Request(&'a [u8]),
    /// The restart of a node.
    Restart(&'a [u8]),
}

/// `go N`.
fn go_form(parts: Parts<'_>) -> Option<LineForm<'_>>
    ensures { option_map meaning result ≡ forms.go_form parts.entry }
{
    let steps = read_up_to(parts.only()?, MOST_STEPS)?;
    Some(LineForm::Go(steps))
}

/// `until beacon`.
fn until_form(parts: Parts<'_>) -> Option<LineForm<'_>>
    ensures { option_map meaning result ≡ forms.until_form parts.entry }
{
    if parts.only()? == "beacon".as_bytes() {
        Some(LineForm::UntilBeacon)
    } else {
        None
    }
}

/// `lose NODE ..`.
fn lose_form(parts: Parts<'_>) -> Option<LineForm<'_>>
    ensures { option_map meaning result ≡ forms.lose_form parts.entry }
{
    if parts.is_empty() || !parts.are_names() {
        return None;
    }
    Some(LineForm::Lose(parts))
}

/// What a line asks for that begins with this word and goes on with these parts.
fn words_form<'a>(word: &[u8], parts: Parts<'a>) -> Option<LineForm<'a>>
    ensures { option_map meaning result ≡ forms.words_form word.now parts.entry }
{
    if word == "go".as_bytes() {
        return go_form(parts);
    }
    if word == "until".as_bytes() {
        return until_form(parts);
    }
    if word == "lose".as_bytes() {
        return lose_form(parts);
    }
    if word == "request".as_bytes() {
        return Some(LineForm::Request(parts.only_name()?));
    }
    if word == "restart".as_bytes() {
        return Some(LineForm::Restart(parts.only_name()?));
    }
    None
}

/// Whether a line is passed over: whether it is empty or a comment.
fn is_passed(line: &[u8]) -> bool
    ensures { result ≡ forms.is_passed line.now }
{
    match line {
        [] => true,
        [byte, ..] => *byte == b'#',
    }
}

/// What a line asks for, without its line feed. `None` stands for a line of no form.
pub(crate) fn line_form(line: &[u8]) -> Option<LineForm<'_>>
    ensures { option_map meaning result ≡ forms.line_form line.now }
{
    if line.len() > LONGEST {
        return None;
    }
    if is_passed(line) {
        return Some(LineForm::Passed);
    }
    let mut parts = words(line);
    let word = parts.next()?;
    words_form(word, parts)
}

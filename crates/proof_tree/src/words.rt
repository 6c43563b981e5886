//! Lines of words that are added to a text.

ghost use Rattle.std.specs.Prelude.{◌≡◌, ◌∷◌, [], ◌++◌, List, ℕ, map, OnOk, OnErr, codes, unsigned_abs, take, drop, find, nat_eq, ℤ};
ghost use Rattle.std.specs.List.{flat_map, join_with_byte};
ghost use Rattle.std.specs.Option.{option_copied};
ghost use Rattle.ttw_text.specs.Numbers.{spelled};
ghost use Rattle.proof_tree.specs.Written.{StoppedWithin};
ghost use Rattle.proof_tree.specs.Names.{name_of, messages_in};
ghost use Rattle.proof_tree.specs.Items.{line};
ghost use Rattle.proof_tree.specs.WordSpelling.{spelling_of, spelled_time, spellings_of, after_space};

use app_graph::{App, Message};
use std::alloc::AllocError;
use tick_num::Time;
use ttw_text::Out;

/// A word of a line.
#[derive(Clone, Copy)]
pub enum Word<'a> {
    Text(&'a [u8]),
    Number(u64),
}

/// The words of a line after its first.
#[derive(Clone, Copy)]
pub enum Words<'a> {
    /// These words.
    Given(&'a [Word<'a>]),
    /// Numbers.
    Numbers(&'a [u32]),
    /// Times, which are not below 0.
    Times(&'a [Time]),
    /// The number of a round and the names of the messages of these numbers.
    Table {
        round: u64,
        numbers: &'a [u32],
        apps: &'a [App],
    },
}

/// Adds a word.
fn write_word(word: &Word<'_>, out: &mut Out) -> Result<(), AllocError>
    ensures ok { OnOk result (out.new ≡ out.old ++ spelling_of word.now) }
    ensures err { OnErr result (out.new ≡ out.old) }
{
    match word {
        Word::Text(text) => out.put(text),
        Word::Number(n) => out.number(*n),
    }
}

/// Adds a space and a word.
fn write_spaced(word: &Word<'_>, out: &mut Out) -> Result<(), AllocError>
    ensures ok { OnOk result (out.new ≡ out.old ++ after_space (spelling_of word.now)) }
    ensures err { OnErr result
        (StoppedWithin out.old out.new (after_space (spelling_of word.now))) }
{
    out.put(b" ")?;
    write_word(word, out)
}

/// Adds words, each after a space.
fn write_given(words: &[Word<'_>], out: &mut Out) -> Result<(), AllocError>
    ensures ok { OnOk result
        (out.new ≡ out.old ++ flat_map after_space (map spelling_of words.now)) }
    ensures err { OnErr result
        (StoppedWithin out.old out.new (flat_map after_space (map spelling_of words.now))) }
{
    for word in words {
        write_spaced(word, out)?;
    }
    Ok(())
}

/// Adds numbers, each after a space.
fn write_numbers(numbers: &[u32], out: &mut Out) -> Result<(), AllocError>
    ensures ok { OnOk result (out.new ≡ out.old ++ flat_map after_space (map spelled numbers.now)) }
    ensures err { OnErr result
        (StoppedWithin out.old out.new (flat_map after_space (map spelled numbers.now))) }
{
    for number in numbers {
        write_spaced(&Word::Number(u64::from(*number)), out)?;
    }
    Ok(())
}

/// Adds times, each after a space.
fn write_times(times: &[Time], out: &mut Out) -> Result<(), AllocError>
    ensures ok { OnOk result
        (out.new ≡ out.old ++ flat_map after_space (map spelled_time times.now)) }
    ensures err { OnErr result
        (StoppedWithin out.old out.new (flat_map after_space (map spelled_time times.now))) }
{
    for time in times {
        write_spaced(&Word::Number(time.unsigned_abs()), out)?;
    }
    Ok(())
}

/// The message of this number, where there is one.
fn message_of(apps: &[App], number: u32) -> Option<&Message>
    ensures { option_copied result ≡ find (λ message. nat_eq message.number number) (messages_in apps.now) }
{
    apps.iter()
        .flat_map(|app| app.messages.as_slice())
        .find(|message| message.number == number)
}

/// The name of the message of this number.
fn name_of_message(apps: &[App], number: u32) -> &[u8]
    ensures { result.now ≡ name_of (messages_in apps.now) number }
{
    match message_of(apps, number) {
        Some(message) => message.name.as_bytes(),
        None => b"",
    }
}

/// Adds the names of the messages of these numbers, each after a space.
fn write_names(numbers: &[u32], apps: &[App], out: &mut Out) -> Result<(), AllocError>
    ensures ok { OnOk result
        (out.new ≡ out.old
        ++ flat_map after_space (map (name_of (messages_in apps.now)) numbers.now)) }
    ensures err { OnErr result
        (StoppedWithin out.old out.new
        (flat_map after_space (map (name_of (messages_in apps.now)) numbers.now))) }
{
    for number in numbers {
        write_spaced(&Word::Text(name_of_message(apps, *number)), out)?;
    }
    Ok(())
}

/// Adds words, each after a space.
fn write_words(words: Words<'_>, out: &mut Out) -> Result<(), AllocError>
    ensures ok { OnOk result
        (out.new ≡ out.old ++ flat_map after_space (spellings_of words.entry)) }
    ensures err { OnErr result
        (StoppedWithin out.old out.new (flat_map after_space (spellings_of words.entry))) }
{
    match words {
        Words::Given(words) => write_given(words, out),
        Words::Numbers(numbers) => write_numbers(numbers, out),
        Words::Times(times) => write_times(times, out),
        Words::Table {
            round,
            numbers,
            apps,
        } => {
            write_spaced(&Word::Number(round), out)?;
            write_names(numbers, apps, out)
        }
    }
}

/// Adds a line: its first word, the others, each after a space, and a line feed.
pub fn write_line(first: &str, words: Words<'_>, out: &mut Out) -> Result<(), AllocError>
    ensures ok { OnOk result (out.new ≡ out.old ++ line first.now (spellings_of words.entry)) }
    ensures err { OnErr result
        (StoppedWithin out.old out.new (line first.now (spellings_of words.entry))) }
{
    out.put(first.as_bytes())?;
    write_words(words, out)?;
    out.line_end()
}
